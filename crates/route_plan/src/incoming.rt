//! The links of a site, by the cells that they lead to.

ghost use Rattle.std.specs.Prelude.{◌≡◌, ◌<◌, ◌++◌, ◌∷◌, [], length, replicate, IfOk, OnOk, All};
ghost use Rattle.site_map.specs.Claims.{site_of};
ghost use Rattle.route_plan.specs.Incoming.{AreEntered, AreIncoming};

use fleet_base::numbers::{CellNo, Link};
use site_map::site::Site;
use std::alloc::{AllocError, Global};
use std::marker::Model;

/// A link seen from the cell that it leads to.
#[derive(Clone, Copy)]
pub(crate) struct Entry {
    /// The cell that it leads from.
    pub from: CellNo,
    /// What driving it costs.
    pub cost: u32,
}

/// The links to one cell.
#[derive(Drop)]
pub(crate) struct Row {
    entries: Vec<Entry>,
}

impl Model for Row {
    ghost use Rattle.std.specs.Prelude.{List};
    ghost use Rattle.route_plan.specs.declared.incoming.Entry.{Entry};

    ghost Value = { List Entry };

    ghost view = { λ r. r.entries.items };
}

impl Row {
    // No links.
    fn new(alloc: Global) -> Self
        ensures { result ≡ [] }
    {
        Row {
            entries: Vec::new(alloc),
        }
    }

    // The links.
    pub(crate) fn entries(&self) -> &[Entry]
        ensures { result.now ≡ self.now }
    {
        &self.entries
    }

    // Adds a link at the end.
    fn push(&mut self, entry: Entry) -> Result<(), AllocError>
        ensures { OnOk result (self.new ≡ self.old ++ entry ∷ []) }
    {
        self.entries.push(entry)?;
        Ok(())
    }
}

/// The links of a site, for each cell those that lead to it. Made once, they serve the search for the
/// labels to any goal.
#[derive(Drop)]
pub struct Incoming {
    rows: Vec<Row>,
}

impl Model for Incoming {
    ghost use Rattle.std.specs.Prelude.{List};
    ghost use Rattle.route_plan.specs.declared.incoming.Entry.{Entry};

    ghost Value = { List (List Entry) };

    ghost view = { λ i. i.rows.items };
}

impl Incoming {
    /// Those of the site.
    pub fn of(site: &Site, alloc: Global) -> Result<Self, AllocError>
        ensures { IfOk result (AreIncoming (site_of site.now)) }
    {
        Ok(Incoming {
            rows: rows_of(site, alloc)?,
        })
    }

    // By the cells' numbers.
    pub(crate) fn rows(&self) -> &[Row]
        ensures { result.now ≡ self.now }
    {
        &self.rows
    }
}

// For each cell the links that lead to it.
fn rows_of(site: &Site, alloc: Global) -> Result<Vec<Row>, AllocError>
    ensures { IfOk result (λ rows. AreIncoming (site_of site.now) rows.items) }
{
    let count = site.cell_count();
    let mut rows = empty_rows(count, alloc)?;
    for number in 0..count {
        let from = CellNo(number);
        enter_links(&mut rows, from, site.links(from))?;
    }
    Ok(rows)
}

// So many rows without links.
fn empty_rows(count: u32, alloc: Global) -> Result<Vec<Row>, AllocError>
    ensures { IfOk result (λ rows. rows.items ≡ replicate count []) }
{
    let mut rows = Vec::with_capacity(alloc, count as usize)?;
    for _ in 0..count {
        rows.push(Row::new(alloc))?;
    }
    Ok(rows)
}

// Adds the links from a cell to the rows of the cells that they lead to.
fn enter_links(rows: &mut [Row], from: CellNo, links: &[Link]) -> Result<(), AllocError>
    requires { All (λ l. l.to.0 < length rows.old) links.now }
    ensures { OnOk result (AreEntered from links.now rows.old rows.new) }
{
    for link in links {
        let row = &mut rows[link.to.0 as usize];
        row.push(Entry {
            from,
            cost: link.cost,
        })?;
    }
    Ok(())
}
