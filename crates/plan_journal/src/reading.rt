//! The reader of a journal.

ghost use Rattle.std.specs.Prelude.{◌≡◌, ◌+◌, ◌-◌, ◌^◌, ◌<◌, ◌≤◌, List, [], ◌∷◌, length, drop, slice_range, codes, Ok, Err, if◌then◌else◌, MatchOption, IfSome, MatchResult, IfOk, IfErr};
ghost use Rattle.std.specs.List.{list_any};
ghost use Rattle.std.specs.Str.{bytes_eq};
ghost use Rattle.site_lines.specs.declared.fault.Code.TheVariants.{J3};
ghost use Rattle.fleet_names.specs.Names.{Named, count_of};
ghost use Rattle.fleet_names.specs.Things.{is_robot};
ghost use Rattle.plan_journal.specs.Entries.{line_of};
ghost use Rattle.plan_journal.specs.Gives.{Gives, GivesLine, refused_at};
ghost use Rattle.plan_journal.specs.Left.{IsRead, IsReadOn, IsWithin, left};
ghost use Rattle.plan_journal.specs.Reading.{checked, ended_lines, is_odd, journal_of, parts_of};

use crate::lines::{LineRefused, line_of};
use crate::words::split_words;
use fleet_base::entries::Entry;
use fleet_base::limits::MAX_CAP;
use fleet_names::names::Names;
use site_lines::fault::{At, Code};
use site_lines::line::{is_too_long, line_at};
use std::alloc::Global;

/// Reads the journal that a text begins with. What stands behind its last line isn't looked at.
///
/// The result is that of `journal_of`: the entries of the journal, or the first bad line with its
/// least code; `NoMemory` where memory was wanting.
pub fn read_journal(
    alloc: Global,
    bytes: &[u8],
    names: &Names,
) -> Result<JournalFront, ReadJournalRefused>
    requires robots { count_of is_robot names.now ≤ 64 }
    requires short { length bytes.now < 2 ^ 32 - 1 }
    ensures is { Gives result (journal_of names.now bytes.now) }
{
    let mut place = read_header(bytes)?;
    let mut entries = Vec::new(alloc);
    while let Some(entry) = read_entry(alloc, bytes, names, &mut place)? {
        if entries.push(entry).is_err() {
            return Err(ReadJournalRefused::NoMemory);
        }
    }
    Ok(JournalFront {
        entries,
        used: place.used,
        lines: place.lines,
    })
}

/// What a text begins with: a journal, and how much of the text it takes.
#[derive(Drop)]
pub struct JournalFront {
    /// The entries, in order.
    pub entries: Vec<Entry>,
    /// How many bytes the journal's text has, which ends with the line feed of its last line.
    pub used: usize,
    /// How many lines it has.
    pub lines: u32,
}

/// Why a journal isn't read.
#[derive(Clone, Copy, Debug, PartialEq, Eq)]
pub enum ReadJournalRefused {
    /// The first bad line, with its least code.
    Bad(At),
    /// No memory was left.
    NoMemory,
}

impl From<At> for ReadJournalRefused {
    ghost use Rattle.plan_journal.specs.declared.reading.ReadJournalRefused.TheVariants.{Bad};

    ghost from_gives = { λ at refused. refused ≡ Bad at };

    fn from(at: At) -> Self {
        ReadJournalRefused::Bad(at)
    }
}

// What a line says, without its line feed; none at the journal's end.
fn entry_at(
    alloc: Global,
    names: &Names,
    full: bool,
    line: &[u8],
) -> Result<Option<Entry>, LineRefused>
    requires { count_of is_robot names.now ≤ 64 }
    ensures { GivesLine (λ entry. entry) result (checked line.now (line_of names.now full (parts_of line.now))) }
{
    check_line(line)?;
    let words = split_words(alloc, line)?;
    line_of(alloc, names, full, &words)
}

// Whether a line is short enough, and has no odd byte.
fn check_line(line: &[u8]) -> Result<(), Code>
    ensures { result ≡ checked line.now (Ok tt) }
{
    if is_too_long(line) {
        return Err(Code::J1);
    }
    if has_odd_byte(line) {
        return Err(Code::J2);
    }
    Ok(())
}

// Whether a byte of a line may not stand there.
fn has_odd_byte(line: &[u8]) -> bool
    ensures { result ≡ list_any is_odd line.now }
{
    line.iter().any(|byte| is_odd(*byte))
}

// Whether a byte may not stand in a line.
fn is_odd(byte: u8) -> bool
    ensures { result ≡ is_odd byte }
{
    byte < 0x20 || byte > 0x7e
}

// Where the line ends that begins at a place, if a line feed ends it.
fn line_end(bytes: &[u8], from: usize) -> Option<usize>
    requires { from ≤ length bytes.now }
    ensures lines { MatchOption result (ended_lines (drop from bytes.now) ≡ [])
        (λ stop. ended_lines (drop from bytes.now) ≡ slice_range bytes.now from stop ∷ ended_lines (drop (stop + 1) bytes.now)) }
    ensures within { IfSome result (λ stop. (from ≤ stop) × (stop < length bytes.now)) }
{
    match line_at(bytes, from) {
        Some(line) if line.ended => Some(line.stop),
        _ => None,
    }
}

/// How much of a journal was read.
#[derive(Clone, Copy, Debug, PartialEq, Eq)]
pub struct Place {
    /// How many bytes, up to and with the line feed of the last line that was read.
    pub used: usize,
    /// How many lines, with the header.
    pub lines: u32,
}

/// The place behind the first line, which is the header.
pub fn read_header(bytes: &[u8]) -> Result<Place, At>
    ensures is { (names : Named) → MatchResult result
        (λ place. journal_of names bytes.now ≡ left names bytes.now [] place)
        (λ at. journal_of names bytes.now ≡ Err at) }
    ensures first { IfOk result (λ place. place.lines ≡ 1) }
    ensures within { IfOk result (IsWithin bytes.now) }
{
    let Some(stop) = line_end(bytes, 0) else {
        return Err(first_line(Code::J9));
    };
    match check_header(&bytes[..stop]) {
        Ok(()) => Ok(Place {
            used: stop + 1,
            lines: 1,
        }),
        Err(code) => Err(first_line(code)),
    }
}

// Whether a line is the header.
fn check_header(line: &[u8]) -> Result<(), Code>
    ensures { result ≡ checked line.now (if bytes_eq line.now (codes "journal 1") then Ok tt else Err J3) }
{
    check_line(line)?;
    if line == b"journal 1".as_slice() {
        Ok(())
    } else {
        Err(Code::J3)
    }
}

// A fault of the first line.
fn first_line(code: Code) -> At
    ensures { result ≡ record { line = 1; code = code } }
{
    At { line: 1, code }
}

/// Reads the line behind a place: the entry that it says, or None at the journal's end. Each line
/// between the header and the place has an entry. On a refusal the place stays.
pub fn read_entry(
    alloc: Global,
    bytes: &[u8],
    names: &Names,
    place: &mut Place,
) -> Result<Option<Entry>, ReadJournalRefused>
    requires robots { count_of is_robot names.now ≤ 64 }
    requires short { length bytes.now < 2 ^ 32 - 1 }
    requires within { IsWithin bytes.now place.old }
    ensures is { (entries : List Entry) → place.old.lines ≡ length entries + 1 → IsRead names.now bytes.now entries place.old place.new result }
    ensures moved { IfOk result (λ entry. (place.old.used < place.new.used) × (place.new.lines ≡ place.old.lines + 1)) }
    ensures within { IsWithin bytes.now place.new }
    ensures stays { IfErr result (λ refused. place.new ≡ place.old) }
{
    let line = place.lines + 1;
    let Some(stop) = line_end(bytes, place.used) else {
        return Err(refused_at(line, LineRefused::Bad(Code::J9)));
    };
    let full = place.lines > MAX_CAP;
    match entry_at(alloc, names, full, &bytes[place.used..stop]) {
        Ok(entry) => {
            *place = Place {
                used: stop + 1,
                lines: line,
            };
            Ok(entry)
        }
        Err(refused) => Err(refused_at(line, refused)),
    }
}

/// Reads on from a place to the journal's end, and keeps none of its entries.
pub fn read_rest(
    alloc: Global,
    bytes: &[u8],
    names: &Names,
    mut place: Place,
) -> Result<(), ReadJournalRefused>
    requires robots { count_of is_robot names.now ≤ 64 }
    requires short { length bytes.now < 2 ^ 32 - 1 }
    requires within { IsWithin bytes.now place }
    ensures is { (entries : List Entry) → place.lines ≡ length entries + 1 → IsReadOn entries (left names.now bytes.now entries place) result }
{
    while read_entry(alloc, bytes, names, &mut place)?.is_some() {}
    Ok(())
}

// Why a journal isn't read whose line of this number isn't.
fn refused_at(line: u32, refused: LineRefused) -> ReadJournalRefused
    ensures { result ≡ refused_at line refused }
{
    match refused {
        LineRefused::Bad(code) => ReadJournalRefused::Bad(At { line, code }),
        LineRefused::NoMemory => ReadJournalRefused::NoMemory,
    }
}
