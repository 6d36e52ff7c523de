// Where the things of each kind stand among all names.
ghost use Rattle.std.specs.Prelude.{◌≡◌, [], ◌∷◌, ◌++◌, if◌then◌else◌, OnOk, OnErr};
ghost use Rattle.fleet_names.specs.declared.thing.Thing.{Thing};
ghost use Rattle.fleet_names.specs.Things.{same_kind};
ghost use Rattle.fleet_names.specs.Places.{places_in};

use crate::thing::Thing;
use std::alloc::{AllocError, Global};

// For each kind the places of its things among all names, in order.
#[derive(Drop)]
pub(crate) struct Places {
    pub(crate) cells: Vec<u32>,
    pub(crate) crossings: Vec<u32>,
    pub(crate) areas: Vec<u32>,
    pub(crate) robots: Vec<u32>,
}

impl Places {
    // No places of any kind. It takes no memory.
    pub(crate) fn new(alloc: Global) -> Self
        ensures { (other : Thing) → places_in result other ≡ [] }
    {
        Places {
            cells: Vec::new(alloc),
            crossings: Vec::new(alloc),
            areas: Vec::new(alloc),
            robots: Vec::new(alloc),
        }
    }

    // The places of the things of one kind.
    pub(crate) fn of_kind(&self, thing: Thing) -> &[u32]
        ensures { result.now ≡ places_in self.now thing }
    {
        match thing {
            Thing::Cell(_) => &self.cells,
            Thing::Crossing(_) => &self.crossings,
            Thing::Area(_) => &self.areas,
            Thing::Robot(_) => &self.robots,
        }
    }

    // Adds a place to those of the thing's kind.
    pub(crate) fn push(&mut self, thing: Thing, place: u32) -> Result<(), AllocError>
        ensures ok { OnOk result ((other : Thing) → places_in self.new other
            ≡ (if same_kind other thing then places_in self.old other ++ place ∷ [] else places_in self.old other)) }
        ensures err { OnErr result ((other : Thing) → places_in self.new other ≡ places_in self.old other) }
    {
        match thing {
            Thing::Cell(_) => self.cells.push(place)?,
            Thing::Crossing(_) => self.crossings.push(place)?,
            Thing::Area(_) => self.areas.push(place)?,
            Thing::Robot(_) => self.robots.push(place)?,
        }
        Ok(())
    }
}
