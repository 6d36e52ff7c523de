//! Where a text is bad, and how.

ghost use Rattle.std.specs.Prelude.{◌≡◌};
ghost use Rattle.site_lines.specs.Codes.{code_text};

/// What is wrong with a line of a text. Of several codes that fit one line, its reader tells the
/// first in this order. The letter says what was read: S a scenario, C commands, J a journal,
/// T a text that is held against the one that is due.
#[derive(Clone, Copy, Debug, PartialEq, Eq)]
pub enum Code {
    /// The line is too long.
    S1,
    /// Outside a comment stands a byte other than a tab and 0x20 to 0x7E.
    S2,
    /// The first line that isn't blank isn't the scenario's header.
    S3,
    /// The first word isn't a keyword that may stand here.
    S4,
    /// Too few words.
    S5,
    /// Too many words.
    S6,
    /// A word in the place of a name isn't a name.
    S7,
    /// A word in the place of a number isn't 1 to 9 digits.
    S8,
    /// A number is out of its range.
    S9,
    /// A new name is taken already, also by this line.
    S10,
    /// A used name isn't declared, or is of another kind.
    S11,
    /// A set of cells names a cell twice.
    S12,
    /// The line would bring the site or the fleet above a limit.
    S13,
    /// A cell would be in a third crossing.
    S14,
    /// A link from a cell to itself, or one that is there already.
    S15,
    /// A robot's start footprint conflicts with that of an earlier robot.
    S16,
    /// The robot has a mission already.
    S17,
    /// A block five deep, or one that is closed and isn't open, or is open and isn't closed.
    S18,
    /// The length of a mission or block would exceed 64.
    S19,
    /// The scenario ends and has no robot.
    S20,
    /// A line that isn't blank behind the end, in a form that has no such lines.
    S21,
    /// The input ends before the scenario's end; the line is one more than the number of lines.
    S22,
    /// A cell of a flow isn't in its crossing, or stands in an earlier flow of it.
    S23,
    /// The line is too long.
    C1,
    /// Outside a comment stands a byte other than a tab and 0x20 to 0x7E.
    C2,
    /// The first word isn't a command.
    C3,
    /// Too few words.
    C4,
    /// Too many words.
    C5,
    /// A word in the place of a number isn't 1 to 15 digits.
    C6,
    /// A used name isn't declared, or is of another kind.
    C7,
    /// The line is too long.
    J1,
    /// A byte outside 0x20 to 0x7E.
    J2,
    /// The first line isn't the journal's header.
    J3,
    /// The first word isn't one that may stand here.
    J4,
    /// An empty word, or the wrong number of words.
    J5,
    /// A word in the place of a number isn't one, or is out of its range.
    J6,
    /// A word in the place of a name isn't declared, or is of another kind.
    J7,
    /// One entry more than a journal may have.
    J8,
    /// The text ends before the journal's end with its line feed.
    J9,
    /// A line of a checkpoint is out of turn.
    J10,
    /// What stands behind the journal isn't what is due there.
    T1,
    /// The journal's entries replay, and this is its first line that isn't as it would be printed.
    T2,
    /// The journal isn't one segment of version 2, or its checkpoint can't be taken up.
    T3,
}

/// The fault of a text: its first bad line, counted from 1, and the line's least code.
#[derive(Clone, Copy, Debug, PartialEq, Eq)]
pub struct At {
    /// The line's number, from 1; blank lines are counted too.
    pub line: u32,
    /// What is wrong with it.
    pub code: Code,
}

// The texts of the codes, in the order of the variants.
const CODE_TEXTS: [&str; 43] = [
    "S1", "S2", "S3", "S4", "S5", "S6", "S7", "S8", "S9", "S10", "S11", "S12", "S13", "S14", "S15",
    "S16", "S17", "S18", "S19", "S20", "S21", "S22", "S23", "C1", "C2", "C3", "C4", "C5", "C6",
    "C7", "J1", "J2", "J3", "J4", "J5", "J6", "J7", "J8", "J9", "J10", "T1", "T2", "T3",
];

impl Code {
    /// The text of the code, as `S1`.
    pub fn text(self) -> &'static str
        ensures { result.now ≡ code_text self }
    {
        CODE_TEXTS[self as usize]
    }
}
