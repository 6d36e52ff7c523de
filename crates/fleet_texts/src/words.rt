//! The words of printed lines.

ghost use Rattle.std.specs.Prelude.{◌≡◌, ◌++◌, [], ◌∷◌, map, OnOk, OnErr};
ghost use Rattle.fleet_names.specs.Names.{count_of};
ghost use Rattle.fleet_names.specs.Things.{same_kind};
ghost use Rattle.fleet_texts.specs.Words.{behind, name_text, cell_text, robot_text, claim_text, claim_name_text, flow_text, kind_words, cycle_words, block_words};

use crate::pushing::{push_decimal, push_text, push_word};
use fleet_base::answers::Block;
use fleet_base::numbers::{CellNo, ClaimNo, Kind, RobotNo};
use fleet_base::path::NoMemory;
use fleet_base::robot_list::RobotList;
use fleet_names::names::Names;
use fleet_names::thing::Thing;
use site_map::names::ClaimName;
use site_map::site::Site;

// The name of a thing, or no bytes where it has none.
pub(crate) fn name_text(names: &Names, thing: Thing) -> &[u8]
    ensures { result.now ≡ name_text names.now thing }
{
    // Numbers count up from 0, so what is past the count of its kind has no name.
    let _declared = names.len();
    if thing.number() < count_of_kind(names, thing) {
        names.text(thing)
    } else {
        &[]
    }
}

// How many things of the kind of this one have names.
fn count_of_kind(names: &Names, thing: Thing) -> u32
    ensures { result ≡ count_of (same_kind thing) names.now }
{
    match thing {
        Thing::Cell(_) => names.count_cells(),
        Thing::Crossing(_) => names.count_crossings(),
        Thing::Area(_) => names.count_areas(),
        Thing::Robot(_) => names.count_robots(),
    }
}

/// Appends a space and the name of a cell.
pub fn push_cell(text: &mut Vec<u8>, names: &Names, cell: CellNo) -> Result<(), NoMemory>
    ensures ok { OnOk result (text.new.items ≡ text.old.items ++ behind (cell_text names.now cell ∷ [])) }
    ensures err { OnErr result (text.new.items ≡ []) }
{
    push_word(text, name_text(names, Thing::Cell(cell.0)))
}

/// Appends a space and the name of a robot.
pub fn push_robot(text: &mut Vec<u8>, names: &Names, robot: RobotNo) -> Result<(), NoMemory>
    ensures ok { OnOk result (text.new.items ≡ text.old.items ++ behind (robot_text names.now robot ∷ [])) }
    ensures err { OnErr result (text.new.items ≡ []) }
{
    push_word(text, name_text(names, Thing::Robot(robot.0)))
}

/// Appends the names of cells, each with a space before it.
pub fn push_cells(text: &mut Vec<u8>, names: &Names, cells: &[CellNo]) -> Result<(), NoMemory>
    ensures ok { OnOk result (text.new.items ≡ text.old.items ++ behind (map (cell_text names.now) cells.now)) }
    ensures err { OnErr result (text.new.items ≡ []) }
{
    for cell in cells {
        push_cell(text, names, *cell)?;
    }
    Ok(())
}

/// Appends the names of robots, each with a space before it.
pub fn push_robots(text: &mut Vec<u8>, names: &Names, robots: &RobotList) -> Result<(), NoMemory>
    ensures ok { OnOk result (text.new.items ≡ text.old.items ++ behind (map (robot_text names.now) robots.now)) }
    ensures err { OnErr result (text.new.items ≡ []) }
{
    for place in 0..robots.len() {
        if let Some(robot) = robots.get(place) {
            push_robot(text, names, robot)?;
        }
    }
    Ok(())
}

/// Appends a claim: the name of its cell or crossing, and for a flow a colon and its number.
pub fn push_claim(
    text: &mut Vec<u8>,
    names: &Names,
    site: &Site,
    claim: ClaimNo,
) -> Result<(), NoMemory>
    ensures ok { OnOk result (text.new.items ≡ text.old.items ++ claim_text names.now site.now claim) }
    ensures err { OnErr result (text.new.items ≡ []) }
{
    if claim.0 < site.claim_count() {
        push_claim_name(text, names, site.claim_name(claim))
    } else {
        Ok(())
    }
}

// Appends what a claim is a claim of.
fn push_claim_name(text: &mut Vec<u8>, names: &Names, name: ClaimName) -> Result<(), NoMemory>
    ensures ok { OnOk result (text.new.items ≡ text.old.items ++ claim_name_text names.now name) }
    ensures err { OnErr result (text.new.items ≡ []) }
{
    match name {
        ClaimName::Cell(cell) => push_text(text, name_text(names, Thing::Cell(cell.0))),
        ClaimName::Crossing { crossing, flow } => {
            push_text(text, name_text(names, Thing::Crossing(crossing)))?;
            push_flow(text, flow)
        }
    }
}

// Appends a colon and the number of a flow.
fn push_flow(text: &mut Vec<u8>, flow: Option<u32>) -> Result<(), NoMemory>
    ensures ok { OnOk result (text.new.items ≡ text.old.items ++ flow_text flow) }
    ensures err { OnErr result (text.new.items ≡ []) }
{
    match flow {
        None => Ok(()),
        Some(flow) => {
            push_text(text, b":")?;
            push_decimal(text, u64::from(flow))
        }
    }
}

// Appends a space and a claim.
pub(crate) fn push_claim_word(
    text: &mut Vec<u8>,
    names: &Names,
    site: &Site,
    claim: ClaimNo,
) -> Result<(), NoMemory>
    ensures ok { OnOk result (text.new.items ≡ text.old.items ++ behind (claim_text names.now site.now claim ∷ [])) }
    ensures err { OnErr result (text.new.items ≡ []) }
{
    push_text(text, b" ")?;
    push_claim(text, names, site, claim)
}

/// Appends the kind of an event, as ` acquire CLAIM`, with a space before each word.
pub fn push_kind(text: &mut Vec<u8>, names: &Names, site: &Site, kind: Kind) -> Result<(), NoMemory>
    ensures ok { OnOk result (text.new.items ≡ text.old.items ++ behind (kind_words names.now site.now kind)) }
    ensures err { OnErr result (text.new.items ≡ []) }
{
    match kind {
        Kind::Acquire(claim) => {
            push_text(text, b" acquire")?;
            push_claim_word(text, names, site, claim)
        }
        Kind::Move(from, to) => {
            push_text(text, b" move")?;
            push_cell(text, names, from)?;
            push_cell(text, names, to)
        }
        Kind::Release(claim) => {
            push_text(text, b" release")?;
            push_claim_word(text, names, site, claim)
        }
    }
}

/// Appends what blocks a route, as ` CLAIM ROBOT`, and where there is a cycle ` cycle` and its
/// robots behind it, with a space before each word.
pub fn push_block(
    text: &mut Vec<u8>,
    names: &Names,
    site: &Site,
    block: &Block,
) -> Result<(), NoMemory>
    ensures ok { OnOk result (text.new.items ≡ text.old.items ++ behind (block_words names.now site.now block.now)) }
    ensures err { OnErr result (text.new.items ≡ []) }
{
    push_claim_word(text, names, site, block.claim)?;
    push_robot(text, names, block.by)?;
    if block.cycle.is_empty() {
        return Ok(());
    }
    push_text(text, b" cycle")?;
    push_robots(text, names, &block.cycle)
}
