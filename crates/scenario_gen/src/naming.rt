// The names of a drill.
ghost use Rattle.std.specs.Prelude.{◌≡◌, [], ◌∷◌, ◌++◌, IfOk, OnOk};
ghost use Rattle.std.specs.Fmt.{decimal};
ghost use Rattle.fleet_names.specs.Names.{count_of};
ghost use Rattle.fleet_names.specs.Things.{number_of, same_kind};
ghost use Rattle.scenario_gen.specs.Generated.{names, numbered, of_kind};

use fleet_base::path::NoMemory;
use fleet_names::names::Names;
use fleet_names::thing::Thing;
use site_lines::number::{push_bytes, push_number};
use std::alloc::Global;

// The names of so many cells, of so many crossings, of two areas and of so many robots.
pub(crate) fn names(
    alloc: Global,
    cells: u32,
    crossings: u32,
    robots: u32,
) -> Result<Names, NoMemory>
    ensures { IfOk result (λ n. n ≡ names cells crossings robots) }
{
    let mut names = Names::new(alloc);
    add_numbered(alloc, &mut names, b"c", Thing::Cell(0), cells)?;
    add_numbered(alloc, &mut names, b"x", Thing::Crossing(0), crossings)?;
    add(&mut names, b"top", Thing::Area(0))?;
    add(&mut names, b"bottom", Thing::Area(1))?;
    add_numbered(alloc, &mut names, b"r", Thing::Robot(0), robots)?;
    Ok(names)
}

// Adds the names of so many things of a kind, of which none has a name yet.
fn add_numbered(
    alloc: Global,
    names: &mut Names,
    letter: &[u8],
    kind: Thing,
    count: u32,
) -> Result<(), NoMemory>
    requires { count_of (same_kind kind) names.old ≡ 0 }
    ensures { OnOk result (names.new ≡ names.old ++ numbered letter.now kind count) }
{
    for number in 0..count {
        let name = numbered_name(alloc, letter, number)?;
        add(names, &name, of_kind(kind, number))?;
    }
    Ok(())
}

// The letter with the number behind it.
fn numbered_name(alloc: Global, letter: &[u8], number: u32) -> Result<Vec<u8>, NoMemory>
    ensures { IfOk result (λ name. name.items ≡ letter.now ++ decimal number) }
{
    let mut name = Vec::new(alloc);
    push_bytes(&mut name, letter)?;
    push_number(&mut name, u64::from(number))?;
    Ok(name)
}

// The thing of a kind with this number.
fn of_kind(kind: Thing, number: u32) -> Thing
    ensures { result ≡ of_kind kind number }
{
    match kind {
        Thing::Cell(_) => Thing::Cell(number),
        Thing::Crossing(_) => Thing::Crossing(number),
        Thing::Area(_) => Thing::Area(number),
        Thing::Robot(_) => Thing::Robot(number),
    }
}

// Adds the name of the next thing of a kind.
fn add(names: &mut Names, name: &[u8], thing: Thing) -> Result<(), NoMemory>
    requires { number_of thing ≡ count_of (same_kind thing) names.old }
    ensures { OnOk result (names.new ≡ names.old ++ (name.now, thing) ∷ []) }
{
    if names.add(name, thing).is_err() {
        return Err(NoMemory);
    }
    Ok(())
}
