// Each public call once, with ample memory.
use fleet_names::names::{NameRefused, Names};
use fleet_names::thing::{Thing, is_name};
use std::alloc::Global;
use std::test::Fail;

// Adds the name of the next cell, and of the next thing of each other kind.
fn cell(names: &mut Names, name: &[u8]) -> Result<(), NameRefused> {
    let number = names.count_cells();
    names.add(name, Thing::Cell(number))
}

fn crossing(names: &mut Names, name: &[u8]) -> Result<(), NameRefused> {
    let number = names.count_crossings();
    names.add(name, Thing::Crossing(number))
}

fn area(names: &mut Names, name: &[u8]) -> Result<(), NameRefused> {
    let number = names.count_areas();
    names.add(name, Thing::Area(number))
}

fn robot(names: &mut Names, name: &[u8]) -> Result<(), NameRefused> {
    let number = names.count_robots();
    names.add(name, Thing::Robot(number))
}

// The cells a and b, the crossing x, the area yard and the robot r1.
fn junction(alloc: Global) -> Result<Names, NameRefused> {
    let mut names = Names::new(alloc);
    cell(&mut names, b"a")?;
    crossing(&mut names, b"x")?;
    cell(&mut names, b"b")?;
    area(&mut names, b"yard")?;
    robot(&mut names, b"r1")?;
    Ok(names)
}

// Whether the text of the thing that a name names is that name.
fn is_told_back(names: &Names, name: &[u8]) -> bool {
    match names.find(name) {
        Some(thing) => names.text(thing) == name,
        None => false,
    }
}

const NAMES: [(&str, bool); 9] = [
    ("a", true),
    ("z9_0", true),
    ("abcdefghijklmnopqrstuvwxyz012345", true),
    ("abcdefghijklmnopqrstuvwxyz0123456", false),
    ("", false),
    ("A", false),
    ("a-b", false),
    ("a b", false),
    ("{", false),
];

const FOUND: [(&str, Option<Thing>); 7] = [
    ("a", Some(Thing::Cell(0))),
    ("b", Some(Thing::Cell(1))),
    ("x", Some(Thing::Crossing(0))),
    ("yard", Some(Thing::Area(0))),
    ("r1", Some(Thing::Robot(0))),
    ("r", None),
    ("", None),
];

#[test]
fn names_have_1_to_32_letters_digits_and_underscores(rt: HostRuntime) {
    for (name, is) in NAMES {
        assert_eq!(rt; is_name(name.as_bytes()), is);
    }
}

#[test]
fn names_are_found_by_name_and_by_thing(rt: HostRuntime) -> Result<(), Fail> {
    let names = junction(rt.alloc()).map_err(|_| "refused")?;
    for (name, thing) in FOUND {
        assert_eq!(rt; names.find(name.as_bytes()), thing);
        assert_eq!(rt; is_told_back(&names, name.as_bytes()), thing.is_some());
    }
    Ok(())
}

#[test]
fn names_are_counted(rt: HostRuntime) -> Result<(), Fail> {
    let names = junction(rt.alloc()).map_err(|_| "refused")?;
    assert!(rt; !names.is_empty());
    assert_eq!(rt; names.len(), 5);
    assert_eq!(rt; names.count_cells(), 2);
    assert_eq!(rt; names.count_crossings(), 1);
    assert_eq!(rt; names.count_areas(), 1);
    assert_eq!(rt; names.count_robots(), 1);
    Ok(())
}

#[test]
fn taken_and_bad_names_are_refused(rt: HostRuntime) -> Result<(), Fail> {
    let mut names = junction(rt.alloc()).map_err(|_| "refused")?;
    assert_eq!(rt; cell(&mut names, b"x"), Err(NameRefused::Duplicate));
    assert_eq!(rt; cell(&mut names, b"X"), Err(NameRefused::BadName));
    assert_eq!(rt; Thing::Robot(7).number(), 7);
    Ok(())
}
