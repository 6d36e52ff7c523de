// What the names of a line name.
ghost use Rattle.std.specs.Prelude.{◌≡◌, ◌<◌, ◌≤◌, true, not, [], ◌∷◌, length, drop, Some, IfSome, IfOk, IfErr, OnOk};
ghost use Rattle.std.specs.List.{list_all};
ghost use Rattle.std.specs.Str.Parse.{digits_value};
ghost use Rattle.fleet_names.specs.Names.{count_of, is_name};
ghost use Rattle.fleet_names.specs.Things.{is_area, is_cell, is_crossing, is_robot, number_of, same_kind};
ghost use Rattle.site_map.specs.Cells.{are_known};
ghost use Rattle.site_map.specs.Goals.{IsGoal};
ghost use Rattle.site_lines.specs.Numbers.{is_number};
ghost use Rattle.site_lines.specs.Readings.{least_code};
ghost use Rattle.scenario_reader.specs.FleetLines.{robot_named};
ghost use Rattle.scenario_reader.specs.MissionLines.{goal_named};
ghost use Rattle.scenario_reader.specs.SiteLines.{are_cells, cell_at, cell_named, cells_named, crossing_named, ends_rows, has_taken, is_out_of, is_taken, new_set_rows, old_set_rows, with_cell_names, with_name};
ghost use Rattle.scenario_reader.specs.Tables.{row, word, IsFine, IsStop};

use crate::stop::Stop;
use crate::words::{Words, check_names, three};
use fleet_base::limits::MAX_COST;
use fleet_base::numbers::CellNo;
use fleet_names::names::{NameRefused, Names};
use fleet_names::thing::{Thing, is_name};
use site_lines::fault::Code;
use site_lines::number::{NumberRefused, read_number};
use site_map::goal::Goal;
use std::alloc::Global;

// The cell that a name names.
pub(crate) fn cell_named(names: &Names, name: &[u8]) -> Option<CellNo>
    ensures is { result ≡ cell_named names.now name.now }
    ensures known { IfSome result (λ c. c.0 < count_of is_cell names.now) }
{
    match names.find(name) {
        Some(Thing::Cell(number)) => Some(CellNo(number)),
        _ => None,
    }
}

// The number of the crossing that a name names.
pub(crate) fn crossing_named(names: &Names, name: &[u8]) -> Option<u32>
    ensures is { result ≡ crossing_named names.now name.now }
    ensures known { IfSome result (λ k. k < count_of is_crossing names.now) }
{
    match names.find(name) {
        Some(Thing::Crossing(number)) => Some(number),
        _ => None,
    }
}

// The number of the robot that a name names.
pub(crate) fn robot_named(names: &Names, name: &[u8]) -> Option<u32>
    ensures is { result ≡ robot_named names.now name.now }
    ensures known { IfSome result (λ r. r < count_of is_robot names.now) }
{
    match names.find(name) {
        Some(Thing::Robot(number)) => Some(number),
        _ => None,
    }
}

// The goal that a name names.
pub(crate) fn goal_named(names: &Names, name: &[u8]) -> Option<Goal>
    ensures { result ≡ goal_named names.now name.now }
{
    match names.find(name) {
        Some(Thing::Cell(number)) => Some(Goal::Cell(CellNo(number))),
        Some(Thing::Area(number)) => Some(Goal::Area(number)),
        _ => None,
    }
}

// The cells that these words name, where each of them names one; else the code.
pub(crate) fn cells_named(
    alloc: Global,
    names: &Names,
    words: &mut Words,
) -> Result<Vec<CellNo>, Stop>
    ensures fine { OnOk result (IsFine (row (not (are_cells names.now words.old)) Code.S11 ∷ [])) }
    ensures count { IfOk result (λ v. length v.items ≡ length words.old) }
    ensures is { IfOk result (λ v. v.items ≡ cells_named names.now words.old) }
    ensures bad { IfErr result (IsStop (row (not (are_cells names.now words.old)) Code.S11 ∷ [])) }
    ensures known { IfOk result (λ v. are_known (count_of is_cell names.now) v.items ≡ true) }
{
    let mut cells = Vec::new(alloc);
    while let Some(word) = words.next() {
        let Some(cell) = cell_named(names, word) else {
            return Err(Stop::Bad(Code::S11));
        };
        cells.push(cell)?;
    }
    Ok(cells)
}

// The name isn't taken; else the code.
pub(crate) fn check_free(names: &Names, name: &[u8]) -> Result<(), Code>
    ensures fine { OnOk result (IsFine (row (is_taken names.now name.now) Code.S10 ∷ [])) }
    ensures bad { IfErr result (λ code. least_code (row (is_taken names.now name.now) Code.S10 ∷ []) ≡ Some code) }
{
    if names.find(name).is_some() {
        return Err(Code::S10);
    }
    Ok(())
}

// The new name and the cells of a line that names a set of cells; else the least code.
pub(crate) fn new_set<'a>(
    alloc: Global,
    names: &Names,
    words: &mut Words<'a>,
) -> Result<(&'a [u8], Vec<CellNo>), Stop>
    ensures fine { OnOk result (IsFine (new_set_rows names.now words.old)) }
    ensures name { IfOk result (λ set. set.0.now ≡ word words.old 0) }
    ensures good { IfOk result (λ set. is_name set.0.now ≡ true) }
    ensures cells { IfOk result (λ set. set.1.items ≡ cells_named names.now (drop 1 words.old)) }
    ensures some { IfOk result (λ set. 0 < length set.1.items) }
    ensures known { IfOk result (λ set. are_known (count_of is_cell names.now) set.1.items ≡ true) }
    ensures bad { IfErr result (IsStop (new_set_rows names.now words.old)) }
{
    check_names(&mut words.again(), 2)?;
    let Some(name) = words.next() else {
        return Err(Stop::Bad(Code::S5));
    };
    check_free(names, name)?;
    let cells = cells_named(alloc, names, words)?;
    Ok((name, cells))
}

// Adds a name for the next thing of a kind, where it isn't taken; else the code.
pub(crate) fn add_name(names: &mut Names, name: &[u8], thing: Thing) -> Result<(), Stop>
    requires name { is_name name.now ≡ true }
    requires next { number_of thing ≡ count_of (same_kind thing) names.old }
    ensures fine { OnOk result (IsFine (row (is_taken names.old name.now) Code.S10 ∷ [])) }
    ensures added { OnOk result (names.new ≡ with_name names.old name.now thing) }
    ensures bad { IfErr result (IsStop (row (is_taken names.old name.now) Code.S10 ∷ [])) }
{
    match names.add(name, thing) {
        Ok(()) => Ok(()),
        Err(NameRefused::BadName) => Err(Stop::Bad(Code::S7)),
        Err(NameRefused::Duplicate) => Err(Stop::Bad(Code::S10)),
        Err(NameRefused::NoMemory) => Err(Stop::NoMemory),
    }
}

// Adds these names for the next cells, where none of them is taken; else the code.
pub(crate) fn add_cell_names(names: &mut Names, words: &mut Words) -> Result<(), Stop>
    requires { list_all is_name words.old ≡ true }
    ensures fine { OnOk result (IsFine (row (has_taken names.old words.old) Code.S10 ∷ [])) }
    ensures added { OnOk result (names.new ≡ with_cell_names names.old words.old) }
    ensures bad { IfErr result (IsStop (row (has_taken names.old words.old) Code.S10 ∷ [])) }
{
    while let Some(word) = words.next() {
        let cell = Thing::Cell(names.count_cells());
        add_name(names, word, cell)?;
    }
    Ok(())
}

// The crossing and the cells of a line that names a set of its cells; else the least code.
pub(crate) fn old_set(
    alloc: Global,
    names: &Names,
    words: &mut Words,
) -> Result<(u32, Vec<CellNo>), Stop>
    ensures fine { OnOk result (IsFine (old_set_rows names.now words.old)) }
    ensures crossing { IfOk result (λ set. crossing_named names.now (word words.old 0) ≡ Some set.0) }
    ensures declared { IfOk result (λ set. set.0 < count_of is_crossing names.now) }
    ensures cells { IfOk result (λ set. set.1.items ≡ cells_named names.now (drop 1 words.old)) }
    ensures some { IfOk result (λ set. 0 < length set.1.items) }
    ensures known { IfOk result (λ set. are_known (count_of is_cell names.now) set.1.items ≡ true) }
    ensures bad { IfErr result (IsStop (old_set_rows names.now words.old)) }
{
    check_names(&mut words.again(), 2)?;
    let Some(name) = words.next() else {
        return Err(Stop::Bad(Code::S5));
    };
    let Some(crossing) = crossing_named(names, name) else {
        return Err(Stop::Bad(Code::S11));
    };
    let cells = cells_named(alloc, names, words)?;
    Ok((crossing, cells))
}

// The cells and the cost of a line of links; else the least code.
pub(crate) fn ends(names: &Names, words: &mut Words) -> Result<(CellNo, CellNo, u32), Stop>
    ensures fine { OnOk result (IsFine (ends_rows names.now words.old)) }
    ensures from { IfOk result (λ e. e.0 ≡ cell_at names.now (word words.old 0)) }
    ensures to { IfOk result (λ e. e.1 ≡ cell_at names.now (word words.old 1)) }
    ensures cost { IfOk result (λ e. e.2 ≡ digits_value 10 (word words.old 2)) }
    ensures known { IfOk result (λ e. (e.0.0 < count_of is_cell names.now) × (e.1.0 < count_of is_cell names.now)) }
    ensures costs { IfOk result (λ e. (1 ≤ e.2) × (e.2 ≤ MAX_COST)) }
    ensures bad { IfErr result (IsStop (ends_rows names.now words.old)) }
{
    let (from, to, cost) = three(words)?;
    if !is_name(from) || !is_name(to) {
        return Err(Stop::Bad(Code::S7));
    }
    let cost = number(cost, 1, MAX_COST)?;
    match (cell_named(names, from), cell_named(names, to)) {
        (Some(from), Some(to)) => Ok((from, to, cost)),
        _ => Err(Stop::Bad(Code::S11)),
    }
}

// The number from `low` to `high` that a word of at most 9 digits says; else the least code.
pub(crate) fn number(word: &[u8], low: u32, high: u32) -> Result<u32, Code>
    ensures fine { OnOk result (IsFine (row (not (is_number 9 word.now)) Code.S8 ∷ row (is_out_of low high word.now) Code.S9 ∷ [])) }
    ensures is { IfOk result (λ n. n ≡ digits_value 10 word.now) }
    ensures within { IfOk result (λ n. (low ≤ n) × (n ≤ high)) }
    ensures bad { IfErr result (λ code. least_code (row (not (is_number 9 word.now)) Code.S8 ∷ row (is_out_of low high word.now) Code.S9 ∷ []) ≡ Some code) }
{
    match read_number(word, 9, u64::from(low), u64::from(high)) {
        Ok(number) => Ok(number as u32),
        Err(NumberRefused::BadNumber) => Err(Code::S8),
        Err(NumberRefused::OutOfRange) => Err(Code::S9),
    }
}
