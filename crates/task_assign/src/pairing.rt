//! Columns of rows.

ghost use Rattle.std.specs.Prelude.{◌≡◌, ◌<◌, ◌≤◌, ℕ};
ghost use Rattle.task_assign.specs.Pairings.{IsPairing};
ghost use Rattle.task_assign.specs.Bounds.{column_in, AreExchanged};

// The column of each row.
#[derive(Drop)]
pub(crate) struct Pairing {
    pub(crate) columns: [u32; 64],
}

impl Pairing {
    // Each row has the column of its own number.
    pub(crate) fn new() -> Pairing
        ensures { (k : ℕ) → k < 64 → column_in result k ≡ k }
    {
        let mut columns = [0; 64];
        for row in 0..64 {
            columns[row as usize] = row;
        }
        Pairing { columns }
    }

    // The column of the row.
    pub(crate) fn column(&self, row: u32) -> u32
        requires { row < 64 }
        ensures { result ≡ column_in self.now row }
    {
        self.columns[row as usize]
    }

    // The row of the column.
    pub(crate) fn holder(&self, column: u32, size: u32) -> u32
        requires few { size ≤ 64 }
        requires pairing { IsPairing size (column_in self.now) }
        requires known { column < size }
        ensures row { result < size }
        ensures found { column_in self.now result ≡ column }
    {
        for row in 0..size {
            if self.column(row) == column {
                return row;
            }
        }
        unreachable!()
    }

    // Gives each of the rows the column of the other.
    pub(crate) fn exchange(&mut self, first: u32, second: u32)
        requires first_known { first < 64 }
        requires second_known { second < 64 }
        ensures { AreExchanged (column_in self.old) (column_in self.new) first second }
    {
        let column = self.columns[first as usize];
        self.columns[first as usize] = self.columns[second as usize];
        self.columns[second as usize] = column;
    }
}
