// The words of a journal's line.
ghost use Rattle.std.specs.Prelude.{◌≡◌, ◌<◌, ◌≤◌, map, Some, None, Ok, Err, if◌then◌else◌, IfOk};
ghost use Rattle.std.specs.Str.Parse.{digits_value};
ghost use Rattle.fleet_names.specs.Names.{count_of};
ghost use Rattle.fleet_names.specs.Things as things;
ghost use Rattle.site_lines.specs.declared.fault.Code.TheVariants.{J6, J7};
ghost use Rattle.plan_journal.specs.Entries.{has_empty, keyword_of, is_plain_number, is_number_to, is_robot, robot_in, is_cell, cell_in};
ghost use Rattle.plan_journal.specs.Reading.{parts_of};

use fleet_base::numbers::{CellNo, RobotNo};
use fleet_names::names::Names;
use fleet_names::thing::Thing;
use site_lines::fault::Code;
use site_lines::number::read_number;
use std::alloc::{AllocError, Global};

// The greatest number of 15 digits.
const MAX_NUMBER: u64 = 999_999_999_999_999;

// The first word of a line behind the header.
#[derive(Clone, Copy, Debug, PartialEq, Eq)]
pub enum Keyword {
    Merged,
    Deferred,
    Retried,
    Canceled,
    Withdrawn,
    Replanned,
    Reported,
    End,
}

// The words of a line: what stands between its spaces.
pub(crate) fn split_words(alloc: Global, line: &[u8]) -> Result<Vec<&[u8]>, AllocError>
    ensures { IfOk result (λ words. map (λ w. w.now) words.items ≡ parts_of line.now) }
{
    line.split(|b| *b == b' ').collect(alloc)
}

// Whether one of the words has no byte.
pub(crate) fn has_empty(words: &[&[u8]]) -> bool
    ensures { result ≡ has_empty (map (λ w. w.now) words.now) }
{
    for word in words {
        if word.is_empty() {
            return true;
        }
    }
    false
}

// The keyword that a word is.
pub(crate) fn keyword_of(word: &[u8]) -> Option<Keyword>
    ensures { result ≡ keyword_of word.now }
{
    if word == b"merged".as_slice() {
        Some(Keyword::Merged)
    } else if word == b"deferred".as_slice() {
        Some(Keyword::Deferred)
    } else if word == b"retried".as_slice() {
        Some(Keyword::Retried)
    } else if word == b"canceled".as_slice() {
        Some(Keyword::Canceled)
    } else if word == b"withdrawn".as_slice() {
        Some(Keyword::Withdrawn)
    } else if word == b"replanned".as_slice() {
        Some(Keyword::Replanned)
    } else if word == b"reported".as_slice() {
        Some(Keyword::Reported)
    } else if word == b"end".as_slice() {
        Some(Keyword::End)
    } else {
        None
    }
}

// The number that a word says: 1 to 15 digits without a leading zero, or `0` itself.
pub(crate) fn plain_number(word: &[u8]) -> Result<u64, Code>
    ensures is { result ≡ (if is_plain_number word.now then Ok (digits_value 10 word.now) else Err J6) }
    ensures within { IfOk result (λ number. number ≤ MAX_NUMBER) }
{
    if word.len() > 1 && word[0] == b'0' {
        return Err(Code::J6);
    }
    match read_number(word, 15, 0, MAX_NUMBER) {
        Ok(number) => Ok(number),
        Err(_) => Err(Code::J6),
    }
}

// The same, for a number of at most so much.
#[tactic(auto, unfolding(crate::specs::Entries::is_number_to))]
pub(crate) fn number_to(limit: u64, word: &[u8]) -> Result<u64, Code>
    ensures is { result ≡ (if is_number_to limit word.now then Ok (digits_value 10 word.now) else Err J6) }
    ensures within { IfOk result (λ number. number ≤ limit) }
{
    let number = plain_number(word)?;
    if number > limit {
        return Err(Code::J6);
    }
    Ok(number)
}

// The robot of this name.
pub(crate) fn robot_named(names: &Names, name: &[u8]) -> Result<RobotNo, Code>
    ensures is { result ≡ (if is_robot names.now name.now then Ok (robot_in names.now name.now) else Err J7) }
    ensures known { IfOk result (λ robot. robot.0 < count_of things.is_robot names.now) }
{
    match names.find(name) {
        Some(Thing::Robot(number)) => Ok(RobotNo(number)),
        _ => Err(Code::J7),
    }
}

// The cell of this name.
pub(crate) fn cell_named(names: &Names, name: &[u8]) -> Result<CellNo, Code>
    ensures is { result ≡ (if is_cell names.now name.now then Ok (cell_in names.now name.now) else Err J7) }
    ensures known { IfOk result (λ cell. cell.0 < count_of things.is_cell names.now) }
{
    match names.find(name) {
        Some(Thing::Cell(number)) => Ok(CellNo(number)),
        _ => Err(Code::J7),
    }
}
