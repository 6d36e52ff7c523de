//! The links from one cell.

ghost use Rattle.std.specs.Prelude.{◌≡◌, ◌==◌, ◌<◌, ◌≤◌, [], false, find, length, nat_lt, take_while, IfOk, OnOk, OnErr};
ghost use Rattle.std.specs.List.{list_any};
ghost use Rattle.std.specs.Option.{option_map};
ghost use Rattle.site_map.specs.Cells.{with_one_more, LinksRise};

use fleet_base::numbers::{CellNo, Link};
use std::alloc::{AllocError, Global};
use std::marker::Model;

/// The links from one cell, ascending by the cells that they lead to.
#[derive(Drop)]
pub(crate) struct LinkList {
    links: Vec<Link>,
}

impl Model for LinkList {
    ghost use Rattle.std.specs.Prelude.{List};
    ghost use Rattle.fleet_base.specs.declared.numbers.Link.{Link};
    ghost use Rattle.site_map.specs.Cells.{LinksRise};

    ghost Value = { List Link };

    ghost view = { λ l. l.links.items };

    ghost invariant = { λ l. LinksRise 0 l.links.items };
}

impl LinkList {
    // No links.
    pub(crate) fn new(alloc: Global) -> Self
        ensures { result ≡ [] }
    {
        LinkList {
            links: Vec::new(alloc),
        }
    }

    // The links, ascending by the cells that they lead to.
    pub(crate) fn as_slice(&self) -> &[Link]
        ensures links { result.now ≡ self.now }
        ensures ascending { LinksRise 0 self.now }
    {
        self.links.as_slice()
    }

    // What the link to the cell costs, if there is one.
    pub(crate) fn cost(&self, to: CellNo) -> Option<u32>
        ensures { result ≡ option_map (λ l. l.cost) (find (λ l. l.to.0 == to.0) self.now) }
    {
        self.links
            .iter()
            .find(|link| link.to.0 == to.0)
            .map(|link| link.cost)
    }

    // Whether there is a link to the cell.
    pub(crate) fn has(&self, to: CellNo) -> bool
        ensures { result ≡ list_any (λ l. l.to.0 == to.0) self.now }
    {
        self.links.iter().any(|link| link.to.0 == to.0)
    }

    // Puts a link to a new cell into its place.
    pub(crate) fn insert(&mut self, link: Link) -> Result<(), AllocError>
        requires { list_any (λ l. l.to.0 == link.to.0) self.old ≡ false }
        ensures ok { OnOk result (self.new ≡ with_one_more self.old link) }
        ensures err { OnErr result (self.new ≡ self.old) }
    {
        let place = place_among(self.links.as_slice(), link.to);
        self.links.insert(place, link)?;
        Ok(())
    }

    // An equal list.
    pub(crate) fn copy(&self, alloc: Global) -> Result<LinkList, AllocError>
        ensures { IfOk result (λ l. l ≡ self.now) }
    {
        Ok(LinkList {
            links: Vec::from_slice(alloc, self.links.as_slice())?,
        })
    }
}

// How many links from the front on lead to cells before this one.
fn place_among(links: &[Link], to: CellNo) -> usize
    ensures within { result ≤ length links.now }
    ensures counted { result ≡ length (take_while (λ l. nat_lt l.to.0 to.0) links.now) }
{
    links.iter().take_while(|link| link.to.0 < to.0).count()
}

// Equal lists.
pub(crate) fn copy_links(alloc: Global, rows: &[LinkList]) -> Result<Vec<LinkList>, AllocError>
    ensures { IfOk result (λ v. v.items ≡ rows.now) }
{
    let mut copies = Vec::with_capacity(alloc, rows.len())?;
    for row in rows {
        copies.push(row.copy(alloc)?)?;
    }
    Ok(copies)
}
