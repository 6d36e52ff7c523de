//! A short list of robots in place.

ghost use Rattle.std.specs.Prelude.{◌≡◌, ◌==◌, ◌<◌, [], ◌∷◌, ◌++◌, length, slice_get};

use crate::numbers::RobotNo;
use std::marker::Model;

/// A list of at most 64 robots, each with a number below 64. It takes no memory.
#[derive(Clone, Copy, Debug, PartialEq, Eq)]
pub struct RobotList {
    len: u8,
    places: [u8; 64],
}

impl Model for RobotList {
    ghost use Rattle.std.specs.Prelude.{List};
    ghost use Rattle.fleet_base.specs.declared.numbers.RobotNo.{RobotNo};

    ghost Value = { List RobotNo };

    ghost use Rattle.fleet_base.specs.RobotLists.{shown, IsKept, places_of, places_of-shown};

    ghost view = { shown };

    ghost invariant = { IsKept };

    ghost inverse = { places_of };

    ghost inverse_ok = { places_of-shown };
}

impl RobotList {
    /// The empty list.
    pub fn new() -> Self
        ensures { result ≡ [] }
    {
        RobotList {
            len: 0,
            places: [0; 64],
        }
    }

    /// Adds a robot at the end.
    pub fn push(&mut self, robot: RobotNo)
        requires known { robot.0 < 64 }
        requires room { length self.old < 64 }
        ensures { self.new ≡ self.old ++ robot ∷ [] }
    {
        self.places[self.len as usize] = robot.0 as u8;
        self.len += 1;
    }

    /// The number of robots in the list.
    pub fn len(&self) -> u32
        ensures { result ≡ length self.now }
    {
        self.len as u32
    }

    /// Whether the list has no robot.
    pub fn is_empty(&self) -> bool
        ensures { result ≡ (length self.now == 0) }
    {
        self.len == 0
    }

    /// The robot at a place, from 0. None exactly where the place isn't below the length.
    pub fn get(&self, place: u32) -> Option<RobotNo>
        ensures { result ≡ slice_get self.now place }
    {
        if place < self.len as u32 {
            Some(RobotNo(self.places[place as usize] as u32))
        } else {
            None
        }
    }
}
