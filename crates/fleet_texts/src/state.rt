//! The lines of a state, from which a caller makes its text: the header, for each robot its own
//! line, its held claims, its pending route and its events, and the end.

ghost use Rattle.std.specs.Prelude.{◌≡◌, ◌++◌, [], ◌∷◌, map, codes, OnOk, OnErr};
ghost use Rattle.std.specs.Option.{option_copied};
ghost use Rattle.fleet_texts.specs.Words.{spaced, behind, lines_text, claim_text};
ghost use Rattle.fleet_texts.specs.StateTexts.{header_lines, robot_line, holds_line, pending_lines, event_words, event_line};

use crate::pushing::{push_decimal, push_number_word, push_text};
use crate::words::{push_cell, push_cells, push_claim_word, push_kind, push_robot};
use fleet_base::numbers::{CellNo, ClaimNo, Event, EventNo, RobotNo};
use fleet_base::path::NoMemory;
use fleet_names::names::Names;
use site_map::site::Site;

/// Appends the first lines of a state: how many entries there are, and the next event number.
pub fn push_header(text: &mut Vec<u8>, entries: u64, next: EventNo) -> Result<(), NoMemory>
    ensures ok { OnOk result (text.new.items ≡ text.old.items ++ lines_text (header_lines entries next.0)) }
    ensures err { OnErr result (text.new.items ≡ []) }
{
    push_text(text, b"state 1\nentries")?;
    push_number_word(text, entries)?;
    push_text(text, b"\nnext")?;
    push_number_word(text, next.0)?;
    push_text(text, b"\n")
}

/// Appends a robot's line: the cell that it is at, and its end.
pub fn push_robot_line(
    text: &mut Vec<u8>,
    names: &Names,
    robot: RobotNo,
    at: CellNo,
    end: CellNo,
) -> Result<(), NoMemory>
    ensures ok { OnOk result (text.new.items ≡ text.old.items ++ lines_text (robot_line names.now robot at end ∷ [])) }
    ensures err { OnErr result (text.new.items ≡ []) }
{
    push_text(text, b"robot")?;
    push_robot(text, names, robot)?;
    push_text(text, b" at")?;
    push_cell(text, names, at)?;
    push_text(text, b" end")?;
    push_cell(text, names, end)?;
    push_text(text, b"\n")
}

/// Appends the line of the claims that a robot holds.
pub fn push_holds_line(
    text: &mut Vec<u8>,
    names: &Names,
    site: &Site,
    held: &[ClaimNo],
) -> Result<(), NoMemory>
    ensures ok { OnOk result (text.new.items ≡ text.old.items ++ lines_text (holds_line names.now site.now held.now ∷ [])) }
    ensures err { OnErr result (text.new.items ≡ []) }
{
    push_text(text, b"holds")?;
    push_claims(text, names, site, held)?;
    push_text(text, b"\n")
}

// Appends claims, each with a space before it.
fn push_claims(
    text: &mut Vec<u8>,
    names: &Names,
    site: &Site,
    claims: &[ClaimNo],
) -> Result<(), NoMemory>
    ensures ok { OnOk result (text.new.items ≡ text.old.items ++ behind (map (claim_text names.now site.now) claims.now)) }
    ensures err { OnErr result (text.new.items ≡ []) }
{
    for claim in claims {
        push_claim_word(text, names, site, *claim)?;
    }
    Ok(())
}

/// Appends the line of a robot's pending route, and nothing where it has none.
pub fn push_pending_line(
    text: &mut Vec<u8>,
    names: &Names,
    pending: Option<&[CellNo]>,
) -> Result<(), NoMemory>
    ensures ok { OnOk result (text.new.items ≡ text.old.items ++ lines_text (pending_lines names.now (option_copied pending.entry))) }
    ensures err { OnErr result (text.new.items ≡ []) }
{
    match pending {
        None => Ok(()),
        Some(route) => {
            push_text(text, b"pending")?;
            push_cells(text, names, route)?;
            push_text(text, b"\n")
        }
    }
}

/// Appends the line of an unfinished event.
pub fn push_event_line(
    text: &mut Vec<u8>,
    names: &Names,
    site: &Site,
    event: &Event,
) -> Result<(), NoMemory>
    ensures ok { OnOk result (text.new.items ≡ text.old.items ++ lines_text (event_line names.now site.now event.now ∷ [])) }
    ensures err { OnErr result (text.new.items ≡ []) }
{
    push_text(text, b"event ")?;
    push_event(text, names, site, event)?;
    push_text(text, b"\n")
}

/// Appends the number and the kind of an event, as `8 move d b`.
pub fn push_event(
    text: &mut Vec<u8>,
    names: &Names,
    site: &Site,
    event: &Event,
) -> Result<(), NoMemory>
    ensures ok { OnOk result (text.new.items ≡ text.old.items ++ spaced (event_words names.now site.now event.now)) }
    ensures err { OnErr result (text.new.items ≡ []) }
{
    push_decimal(text, event.no.0)?;
    push_kind(text, names, site, event.kind)
}

/// Appends the last line of a state or a journal.
pub fn push_end(text: &mut Vec<u8>) -> Result<(), NoMemory>
    ensures ok { OnOk result (text.new.items ≡ text.old.items ++ lines_text (codes "end" ∷ [])) }
    ensures err { OnErr result (text.new.items ≡ []) }
{
    push_text(text, b"end\n")
}
