//! The names of a site and a fleet, found by name and by thing.

ghost use Rattle.std.specs.Prelude.{◌≡◌, ◌<◌, ◌==◌, ◌↔◌, [], ◌∷◌, ◌++◌, length, true, false, Some, IsSome, IfSome, OnOk, OnErr};
ghost use Rattle.fleet_names.specs.Things.{number_of, same_kind, is_cell, is_crossing, is_area, is_robot};
ghost use Rattle.fleet_names.specs.Names.{is_name, thing_of, name_of, count_of, AreDeclared};

use crate::places::Places;
use crate::thing::{Thing, is_name};
use indexmap::IndexMap;
use std::alloc::{AllocError, Global};
use std::marker::Model;

/// Why a name isn't added; the first cause in this order.
#[derive(Clone, Copy, Debug, PartialEq, Eq)]
pub enum NameRefused {
    /// The bytes aren't a name.
    BadName,
    /// The name is taken.
    Duplicate,
    /// No memory was left, or 4,294,967,295 names are there.
    NoMemory,
}

impl From<AllocError> for NameRefused {
    ghost use Rattle.std.specs.Prelude.{◌≡◌};
    ghost use Rattle.fleet_names.specs.declared.names.NameRefused.TheVariants.{NoMemory};

    ghost from_gives = { λ _ refused. refused ≡ NoMemory };

    fn from(_error: AllocError) -> Self {
        NameRefused::NoMemory
    }
}

/// Names and what they name, in the order of declaration. Contracts see the list of the pairs of a
/// name's bytes and its thing. Cells, crossings, areas and robots share one name space.
#[derive(Drop)]
pub struct Names {
    things: IndexMap<Vec<u8>, Thing>,
    places: Places,
}

impl Model for Names {
    ghost use Rattle.std.specs.Prelude.{List, ℕ};
    ghost use Rattle.fleet_names.specs.declared.thing.Thing.{Thing};

    ghost Value = { List (List ℕ × Thing) };

    ghost use Rattle.fleet_names.specs.Kept.{shown, IsKept};

    ghost view = { shown };

    ghost invariant = { IsKept };
}

impl Names {
    /// No names. It takes no memory.
    pub fn new(alloc: Global) -> Self
        ensures { result ≡ [] }
    {
        Names {
            things: IndexMap::new(alloc),
            places: Places::new(alloc),
        }
    }

    /// Adds a name for the next thing of a kind: its number is the count of its kind so far.
    ///
    /// `BadName` comes exactly where the bytes aren't a name, `Duplicate` exactly where the name is
    /// taken. After each refusal the names are as before.
    pub fn add(&mut self, name: &[u8], thing: Thing) -> Result<(), NameRefused>
        requires { number_of thing ≡ count_of (same_kind thing) self.old }
        ensures ok { OnOk result (self.new ≡ self.old ++ (name.now, thing) ∷ []) }
        ensures bad { (result ≡ Err NameRefused.BadName) ↔ (is_name name.now ≡ false) }
        ensures duplicate { (result ≡ Err NameRefused.Duplicate) ↔ IsSome (thing_of self.old name.now) }
        ensures err { OnErr result (self.new ≡ self.old) }
    {
        let count = self.len();
        if !is_name(name) {
            return Err(NameRefused::BadName);
        }
        if self.find(name).is_some() {
            return Err(NameRefused::Duplicate);
        }
        if count >= u32::MAX as usize {
            return Err(NameRefused::NoMemory);
        }
        let alloc = *self.things.allocator();
        let key = Vec::from_slice(alloc, name)?;
        self.things.reserve(1)?;
        self.places.push(thing, count as u32)?;
        let _ = self.things.insert(key, thing).unwrap();
        Ok(())
    }

    /// What a name names. None exactly where the name wasn't added.
    pub fn find(&self, name: &[u8]) -> Option<Thing>
        ensures is { result ≡ thing_of self.now name.now }
        // A thing that is found was added, with this name.
        ensures known { IfSome result (λ thing. number_of thing < count_of (same_kind thing) self.now) }
        ensures named { IfSome result (λ thing. name_of self.now thing ≡ Some name.now) }
    {
        self.things.get(name).copied()
    }

    /// The name of a thing that was added.
    pub fn text(&self, thing: Thing) -> &[u8]
        requires { number_of thing < count_of (same_kind thing) self.now }
        ensures is { name_of self.now thing ≡ Some result.now }
        // The name is a name, and names just this thing.
        ensures name { is_name result.now ≡ true }
        ensures found { thing_of self.now result.now ≡ Some thing }
    {
        let place = self.places.of_kind(thing)[thing.number() as usize];
        let (name, _) = self.things.get_index(place as usize).unwrap();
        name.as_slice()
    }

    /// The number of all names.
    pub fn len(&self) -> usize
        ensures is { result ≡ length self.now }
        // Names differ, and the numbers of a kind count up from 0.
        ensures declared { AreDeclared self.now }
    {
        self.things.len()
    }

    /// Whether there is no name.
    pub fn is_empty(&self) -> bool
        ensures { result ≡ (length self.now == 0) }
    {
        self.len() == 0
    }

    /// The number of cells that have names.
    pub fn count_cells(&self) -> u32
        ensures { result ≡ count_of is_cell self.now }
    {
        self.places.cells.len() as u32
    }

    /// The number of crossings that have names.
    pub fn count_crossings(&self) -> u32
        ensures { result ≡ count_of is_crossing self.now }
    {
        self.places.crossings.len() as u32
    }

    /// The number of areas that have names.
    pub fn count_areas(&self) -> u32
        ensures { result ≡ count_of is_area self.now }
    {
        self.places.areas.len() as u32
    }

    /// The number of robots that have names.
    pub fn count_robots(&self) -> u32
        ensures { result ≡ count_of is_robot self.now }
    {
        self.places.robots.len() as u32
    }
}
