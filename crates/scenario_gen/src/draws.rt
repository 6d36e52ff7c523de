// Draws of numbers.
ghost use Rattle.std.specs.Prelude.{◌≡◌, ◌<◌};
ghost use Rattle.scenario_gen.specs.Draws.{draw, drawn};

// The number from which the next draw is made.
#[derive(Clone, Copy)]
pub(crate) struct Draws {
    pub(crate) number: u64,
}

impl Draws {
    // Draws one of the numbers below a bound.
    pub(crate) fn draw(&mut self, bound: u32) -> u32
        requires { 0 < bound }
        ensures value { result ≡ draw bound self.old.number }
        ensures below { result < bound }
        ensures number { self.new.number ≡ drawn self.old.number }
    {
        self.number = next(self.number);
        (self.number / (1 << 32)) as u32 % bound
    }
}

// The number behind one draw.
fn next(number: u64) -> u64
    ensures { result ≡ drawn number }
{
    number
        .wrapping_mul(6_364_136_223_846_793_005)
        .wrapping_add(1_442_695_040_888_963_407)
}
