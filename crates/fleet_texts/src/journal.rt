//! The texts of journal entries and of journals.

ghost use Rattle.std.specs.Prelude.{◌≡◌, ◌++◌, [], ◌∷◌, length, map, IfOk, OnOk, OnErr};
ghost use Rattle.std.specs.Fmt.{decimal};
ghost use Rattle.fleet_texts.specs.Words.{behind, lines_text, cell_text, robot_text};
ghost use Rattle.fleet_texts.specs.Texts.{act_word, detail_words, entry_text, journal_text};

use crate::pushing::{push_number_word, push_text};
use crate::words::{push_cell, push_cells, push_robot, push_robots};
use fleet_base::entries::{Act, Entry};
use fleet_base::numbers::CellNo;
use fleet_base::path::NoMemory;
use fleet_base::robot_list::RobotList;
use fleet_names::names::Names;
use std::alloc::Global;

/// The line of an entry, without its line feed, as `merged r1 1 a b`.
pub fn print_entry(alloc: Global, names: &Names, entry: &Entry) -> Result<Vec<u8>, NoMemory>
    ensures { IfOk result (λ text. text.items ≡ entry_text names.now entry.now) }
{
    let mut text = Vec::new(alloc);
    push_entry(&mut text, names, entry)?;
    Ok(text)
}

/// The text of a journal: its header, a line for each entry, and its end.
pub fn print_journal(alloc: Global, names: &Names, entries: &[Entry]) -> Result<Vec<u8>, NoMemory>
    ensures { IfOk result (λ text. text.items ≡ journal_text names.now entries.now) }
{
    let mut text = Vec::new(alloc);
    push_journal(&mut text, names, entries)?;
    Ok(text)
}

/// Appends the text of a journal.
#[tactic(auto, unfolding(crate::specs::Texts::journal_text))]
pub fn push_journal(text: &mut Vec<u8>, names: &Names, entries: &[Entry]) -> Result<(), NoMemory>
    ensures ok { OnOk result (text.new.items ≡ text.old.items ++ journal_text names.now entries.now) }
    ensures err { OnErr result (text.new.items ≡ []) }
{
    push_text(text, b"journal 1\n")?;
    push_entries(text, names, entries)?;
    push_text(text, b"end\n")
}

/// Appends the line of an entry, without its line feed.
#[tactic(auto, unfolding(crate::specs::Texts::entry_text))]
pub fn push_entry(text: &mut Vec<u8>, names: &Names, entry: &Entry) -> Result<(), NoMemory>
    ensures ok { OnOk result (text.new.items ≡ text.old.items ++ entry_text names.now entry.now) }
    ensures err { OnErr result (text.new.items ≡ []) }
{
    push_text(text, act_word(&entry.act))?;
    push_robot(text, names, entry.robot)?;
    push_details(text, names, &entry.act)
}

// Appends a line for each entry, with its line feed.
fn push_entries(text: &mut Vec<u8>, names: &Names, entries: &[Entry]) -> Result<(), NoMemory>
    ensures ok { OnOk result (text.new.items ≡ text.old.items ++ lines_text (map (entry_text names.now) entries.now)) }
    ensures err { OnErr result (text.new.items ≡ []) }
{
    for entry in entries {
        push_entry(text, names, entry)?;
        push_text(text, b"\n")?;
    }
    Ok(())
}

// The first word of an entry's line.
fn act_word(act: &Act) -> &'static [u8]
    ensures { result.now ≡ act_word act.now }
{
    match act {
        Act::Merged { .. } => b"merged",
        Act::Deferred { .. } => b"deferred",
        Act::Retried { .. } => b"retried",
        Act::Canceled => b"canceled",
        Act::Withdrawn { .. } => b"withdrawn",
        Act::Replanned { .. } => b"replanned",
        Act::Reported { .. } => b"reported",
    }
}

// Appends what stands behind the robot, with a space before each word.
fn push_details(text: &mut Vec<u8>, names: &Names, act: &Act) -> Result<(), NoMemory>
    ensures ok { OnOk result (text.new.items ≡ text.old.items ++ behind (detail_words names.now act.now)) }
    ensures err { OnErr result (text.new.items ≡ []) }
{
    match act {
        Act::Merged { route, first } | Act::Replanned { route, first } => {
            push_number_word(text, first.0)?;
            push_cells(text, names, route.cells())
        }
        Act::Deferred { route, cycle } => push_deferred(text, names, cycle, route.cells()),
        Act::Retried { first } => push_number_word(text, first.0),
        Act::Canceled => Ok(()),
        Act::Withdrawn { removed, end } => {
            push_number_word(text, u64::from(*removed))?;
            push_cell(text, names, *end)
        }
        Act::Reported { event } => push_number_word(text, event.0),
    }
}

// Appends the number of robots of a cycle, the robots and the cells of the route.
fn push_deferred(
    text: &mut Vec<u8>,
    names: &Names,
    cycle: &RobotList,
    route: &[CellNo],
) -> Result<(), NoMemory>
    ensures ok { OnOk result (text.new.items ≡ text.old.items
        ++ behind (decimal (length cycle.now) ∷ map (robot_text names.now) cycle.now ++ map (cell_text names.now) route.now)) }
    ensures err { OnErr result (text.new.items ≡ []) }
{
    push_number_word(text, u64::from(cycle.len()))?;
    push_robots(text, names, cycle)?;
    push_cells(text, names, route)
}
