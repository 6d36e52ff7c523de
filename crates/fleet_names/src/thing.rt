//! What names name, and which bytes are names.

ghost use Rattle.std.specs.Prelude.{◌≡◌};
ghost use Rattle.std.specs.List.{list_all};
ghost use Rattle.fleet_names.specs.Things.{number_of};
ghost use Rattle.fleet_names.specs.Names.{is_name, is_name_byte};

use fleet_base::limits::MAX_NAME;

/// A thing that has a name: its kind, and its number among those of its kind, from 0 in the order
/// of declaration.
#[derive(Clone, Copy, Debug, PartialEq, Eq)]
pub enum Thing {
    /// A cell of the site.
    Cell(u32),
    /// A crossing of the site.
    Crossing(u32),
    /// An area of the site.
    Area(u32),
    /// A robot of the fleet.
    Robot(u32),
}

impl Thing {
    /// The thing's number among those of its kind.
    pub fn number(self) -> u32
        ensures { result ≡ number_of self }
    {
        match self {
            Thing::Cell(number)
            | Thing::Crossing(number)
            | Thing::Area(number)
            | Thing::Robot(number) => number,
        }
    }
}

/// Whether bytes are a name: 1 to 32 bytes of `a` to `z`, `0` to `9` and `_`.
pub fn is_name(bytes: &[u8]) -> bool
    ensures { result ≡ is_name bytes.now }
{
    !bytes.is_empty() && bytes.len() <= MAX_NAME as usize && has_name_bytes(bytes)
}

// Whether each byte may stand in a name.
fn has_name_bytes(bytes: &[u8]) -> bool
    ensures { result ≡ list_all is_name_byte bytes.now }
{
    bytes.iter().all(|b| is_name_byte(*b))
}

// Whether a byte may stand in a name.
fn is_name_byte(byte: u8) -> bool
    ensures { result ≡ is_name_byte byte }
{
    byte >= b'a' && byte <= b'z' || byte >= b'0' && byte <= b'9' || byte == b'_'
}
