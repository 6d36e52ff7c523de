// What a form gives that does its work.
ghost use Rattle.std.specs.Prelude.{◌≡◌};
ghost use Rattle.form_base.specs.Forms.{done, report_view, status_of};

/// How a form ended that gave its text.
#[derive(Clone, Copy, Debug, PartialEq, Eq)]
pub enum Ended {
    /// It did what was asked; of a fleet that was driven, every robot is done.
    Done,
    /// A fleet was driven until none of its robots can go on. Some robot isn't done, and none is
    /// held up by want of room.
    Undone,
    /// The same, and some robot is held up by want of room.
    Full,
}

impl Ended {
    /// The status of the program.
    pub fn status(self) -> u8
        ensures { result ≡ status_of self }
    {
        match self {
            Ended::Done => 0,
            Ended::Undone => 4,
            Ended::Full => 7,
        }
    }
}

/// How a form ended, and its text.
#[derive(Drop)]
pub struct Report {
    /// How it ended.
    pub ended: Ended,
    /// All that is written.
    pub text: Vec<u8>,
}

/// The report of a form that did what was asked.
pub fn done(text: Vec<u8>) -> Report
    ensures { report_view result ≡ done text.items }
{
    Report {
        ended: Ended::Done,
        text,
    }
}
