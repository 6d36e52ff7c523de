// Grids of cells.
ghost use Rattle.std.specs.Prelude.{◌≡◌, ◌*◌, ◌<◌, ◌≤◌, IfSome};
ghost use Rattle.scenario_gen.specs.Grids.{across, along, is_even};

// A grid of cells, which are numbered row by row.
#[derive(Clone, Copy)]
pub(crate) struct Grid {
    pub(crate) width: u32,
    pub(crate) height: u32,
    ghost wide: { 8 ≤ width },
    ghost narrow: { width ≤ 16 },
    ghost high: { 8 ≤ height },
    ghost low: { height ≤ 16 },
}

impl Grid {
    // The number of its cells.
    pub(crate) fn cell_count(self) -> u32
        ensures count { result ≡ self.width * self.height }
        ensures some { 64 ≤ result }
        ensures few { result ≤ 256 }
    {
        self.width * self.height
    }

    // Where the link across leads from a cell: in an even row to the right, in an odd one to the left.
    pub(crate) fn across(self, cell: u32) -> Option<u32>
        requires { cell < self.width * self.height }
        ensures { result ≡ across self.width cell }
    {
        let column = cell % self.width;
        if is_even(cell / self.width) {
            if column + 1 < self.width {
                Some(cell + 1)
            } else {
                None
            }
        } else if column > 0 {
            Some(cell - 1)
        } else {
            None
        }
    }

    // Where the link along leads from a cell: in an even column to the row before, in an odd one to
    // the row behind.
    pub(crate) fn along(self, cell: u32) -> Option<u32>
        requires { cell < self.width * self.height }
        ensures { result ≡ along self.width self.height cell }
    {
        let row = cell / self.width;
        if is_even(cell % self.width) {
            if row > 0 {
                Some(cell - self.width)
            } else {
                None
            }
        } else if row + 1 < self.height {
            Some(cell + self.width)
        } else {
            None
        }
    }
}

fn is_even(number: u32) -> bool
    ensures { result ≡ is_even number }
{
    number % 2 == 0
}
