//! Where a cell stands in crossings.

ghost use Rattle.std.specs.Prelude.{◌≡◌, ℕ, ◌<◌, ◌≤◌, true, nat_le, length, slice_index_or, All};
ghost use Rattle.std.specs.List.{list_any};
ghost use Rattle.std.specs.FinSet as set;
ghost use Rattle.site_map.specs.Inside.{entered, marked, marked_place, places_list};

use bit_set::BitSet;
use fleet_base::numbers::CellNo;

/// A crossing that contains the cell, and the cell's flow line there, if it is in one.
#[derive(Clone, Copy, Debug, PartialEq, Eq)]
pub(crate) struct Place {
    pub(crate) crossing: u32,
    pub(crate) line: Option<u32>,
}

/// The crossings that contain a cell, in their order.
#[derive(Clone, Copy, Debug, PartialEq, Eq)]
pub(crate) enum Places {
    Free,
    One(Place),
    Two(Place, Place),
}

// Whether one of the cells has two places.
pub(crate) fn is_crowded(places: &[Places], cells: &[CellNo]) -> bool
    requires { All (λ c. c.0 < length places.now) cells.now }
    ensures { result ≡ list_any (λ c. nat_le 2 (length (places_list (slice_index_or places.now c.0 Places.Free)))) cells.now }
{
    cells
        .iter()
        .any(|cell| matches!(places[cell.0 as usize], Places::Two(..)))
}

// Gives the cells of the set a place in a new crossing.
pub(crate) fn enter(places: &mut [Places], members: &BitSet<16>, crossing: u32)
    requires few { length places.old ≤ 1024 }
    requires room { (c : ℕ) → c < length places.old → set.contains members.now c ≡ true → length (places_list (slice_index_or places.old c Places.Free)) < 2 }
    ensures { (c : ℕ) → c < length places.old → places_list (slice_index_or places.new c Places.Free) ≡ entered (set.contains members.now c) crossing (places_list (slice_index_or places.old c Places.Free)) }
{
    for number in 0..places.len() {
        if members.contains(number as u32) {
            places[number] = places[number].entered(crossing);
        }
    }
}

// Gives the cells of the set a flow line in a crossing.
pub(crate) fn mark(places: &mut [Places], members: &BitSet<16>, crossing: u32, line: u32)
    requires { length places.old ≤ 1024 }
    ensures { (c : ℕ) → c < length places.old → places_list (slice_index_or places.new c Places.Free) ≡ marked (set.contains members.now c) crossing line (places_list (slice_index_or places.old c Places.Free)) }
{
    for number in 0..places.len() {
        if members.contains(number as u32) {
            places[number] = places[number].marked(crossing, line);
        }
    }
}

impl Places {
    // With a place in one more crossing.
    fn entered(self, crossing: u32) -> Places
        requires { length (places_list self) < 2 }
        ensures { places_list result ≡ entered true crossing (places_list self) }
    {
        let last = Place {
            crossing,
            line: None,
        };
        match self {
            Places::Free => Places::One(last),
            Places::One(first) => Places::Two(first, last),
            Places::Two(..) => unreachable!(),
        }
    }

    // With a flow line in the crossing.
    fn marked(self, crossing: u32, line: u32) -> Places
        ensures { places_list result ≡ marked true crossing line (places_list self) }
    {
        match self {
            Places::Free => Places::Free,
            Places::One(first) => Places::One(first.marked(crossing, line)),
            Places::Two(first, second) => Places::Two(
                first.marked(crossing, line),
                second.marked(crossing, line),
            ),
        }
    }
}

impl Place {
    // With a flow line, if it is in the crossing.
    fn marked(self, crossing: u32, line: u32) -> Place
        ensures { result ≡ marked_place crossing line self }
    {
        if self.crossing == crossing {
            Place {
                crossing,
                line: Some(line),
            }
        } else {
            self
        }
    }
}
