// Lines of a canonical text.
ghost use Rattle.std.specs.Prelude.{◌≡◌, ◌<◌, ◌∷◌, ◌++◌, [], length, map, flat_map, codes, All, OnOk};
ghost use Rattle.std.specs.Fmt.{decimal};
ghost use Rattle.fleet_names.specs.Names.{count_of};
ghost use Rattle.fleet_names.specs.Things.{is_cell, number_of, same_kind};
ghost use Rattle.scenario.specs.Canonical.{cell_names, line, name};

use fleet_base::numbers::CellNo;
use fleet_base::path::NoMemory;
use fleet_names::names::Names;
use fleet_names::thing::Thing;
use site_lines::number::{push_bytes, push_number};

// Appends a word, with a space before it.
pub(crate) fn push_word(text: &mut Vec<u8>, word: &[u8]) -> Result<(), NoMemory>
    ensures { OnOk result (text.new.items ≡ text.old.items ++ 32 ∷ word.now) }
{
    push_bytes(text, b" ")?;
    push_bytes(text, word)
}

// Appends the name of a thing, with a space before it.
pub(crate) fn push_name(text: &mut Vec<u8>, names: &Names, thing: Thing) -> Result<(), NoMemory>
    requires { number_of thing < count_of (same_kind thing) names.now }
    ensures { OnOk result (text.new.items ≡ text.old.items ++ 32 ∷ name names.now thing) }
{
    push_word(text, names.text(thing))
}

// Appends a line of a keyword alone.
pub(crate) fn push_bare(text: &mut Vec<u8>, keyword: &[u8]) -> Result<(), NoMemory>
    ensures { OnOk result (text.new.items ≡ text.old.items ++ line keyword.now []) }
{
    push_bytes(text, keyword)?;
    push_bytes(text, b"\n")
}

// Appends a line of a keyword and a thing.
pub(crate) fn push_one(
    text: &mut Vec<u8>,
    keyword: &[u8],
    names: &Names,
    thing: Thing,
) -> Result<(), NoMemory>
    requires { number_of thing < count_of (same_kind thing) names.now }
    ensures { OnOk result (text.new.items ≡ text.old.items ++ line keyword.now (name names.now thing ∷ [])) }
{
    push_bytes(text, keyword)?;
    push_name(text, names, thing)?;
    push_bytes(text, b"\n")
}

// Appends a line of a keyword, a thing and a cell.
pub(crate) fn push_two(
    text: &mut Vec<u8>,
    keyword: &[u8],
    names: &Names,
    thing: Thing,
    cell: CellNo,
) -> Result<(), NoMemory>
    requires thing { number_of thing < count_of (same_kind thing) names.now }
    requires cell { cell.0 < count_of is_cell names.now }
    ensures { OnOk result (text.new.items ≡ text.old.items ++ line keyword.now (name names.now thing ∷ name names.now (Thing.Cell cell.0) ∷ [])) }
{
    push_bytes(text, keyword)?;
    push_name(text, names, thing)?;
    push_name(text, names, Thing::Cell(cell.0))?;
    push_bytes(text, b"\n")
}

// Appends a line of a link.
pub(crate) fn push_link(
    text: &mut Vec<u8>,
    names: &Names,
    from: CellNo,
    to: CellNo,
    cost: u32,
) -> Result<(), NoMemory>
    requires from { from.0 < count_of is_cell names.now }
    requires to { to.0 < count_of is_cell names.now }
    ensures { OnOk result (text.new.items ≡ text.old.items ++ line (codes "link") (name names.now (Thing.Cell from.0) ∷ name names.now (Thing.Cell to.0) ∷ decimal cost ∷ [])) }
{
    push_bytes(text, b"link")?;
    push_name(text, names, Thing::Cell(from.0))?;
    push_name(text, names, Thing::Cell(to.0))?;
    push_bytes(text, b" ")?;
    push_number(text, u64::from(cost))?;
    push_bytes(text, b"\n")
}

// Appends a line of a keyword, a thing and cells.
pub(crate) fn push_set(
    text: &mut Vec<u8>,
    keyword: &[u8],
    names: &Names,
    thing: Thing,
    cells: &[CellNo],
) -> Result<(), NoMemory>
    requires thing { number_of thing < count_of (same_kind thing) names.now }
    requires cells { All (λ c. c.0 < count_of is_cell names.now) cells.now }
    ensures { OnOk result (text.new.items ≡ text.old.items ++ line keyword.now (name names.now thing ∷ cell_names names.now cells.now)) }
{
    push_bytes(text, keyword)?;
    push_name(text, names, thing)?;
    push_cells(text, names, cells)?;
    push_bytes(text, b"\n")
}

// Appends the names of cells, with a space before each.
fn push_cells(text: &mut Vec<u8>, names: &Names, cells: &[CellNo]) -> Result<(), NoMemory>
    requires { All (λ c. c.0 < count_of is_cell names.now) cells.now }
    ensures { OnOk result (text.new.items ≡ text.old.items ++ flat_map (λ word. 32 ∷ word) (cell_names names.now cells.now)) }
{
    for cell in cells {
        push_name(text, names, Thing::Cell(cell.0))?;
    }
    Ok(())
}
