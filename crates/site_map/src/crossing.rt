//! A crossing while a site is built.

ghost use Rattle.std.specs.Prelude.{◌≡◌, ◌<◌, ◌≤◌, ◌&&◌, true, not, [], List, length, All, IfOk, OnOk, OnErr};
ghost use Rattle.std.specs.List.{list_all, list_any};
ghost use Rattle.std.specs.Option.{unwrap_or};
ghost use Rattle.std.specs.FinSet as set;
ghost use Rattle.fleet_model.specs.Lists.{has_cell};
ghost use Rattle.fleet_base.specs.declared.numbers.CellNo.{CellNo};
ghost use Rattle.site_map.specs.Crossings.{claim_count_of, completed, in_flow, with_line};

use crate::cells::copy_paths;
use bit_set::BitSet;
use fleet_base::numbers::CellNo;
use fleet_base::path::{NoMemory, Path};
use std::alloc::{AllocError, Global};
use std::marker::Model;

/// A crossing: its cells, its flow lines, and the cells in no line yet.
#[derive(Drop)]
pub(crate) struct Crossing {
    cells: Path,
    lines: Vec<Path>,
    free: BitSet<16>,
    has_rest: bool,
}

impl Model for Crossing {
    ghost use Rattle.site_map.specs.Crossings.{BuiltCrossing};

    ghost Value = { BuiltCrossing };

    ghost use Rattle.site_map.specs.Inside.{IsCrossing};

    ghost view = { λ x. record { cells = x.cells; flows = x.lines.items } };

    ghost invariant = { λ x. IsCrossing x.cells x.lines.items x.free x.has_rest };
}

impl Crossing {
    // A crossing of these cells, without flow lines.
    pub(crate) fn new(alloc: Global, cells: Path, members: BitSet<16>) -> Self
        requires some { 0 < length cells }
        requires known { All (λ c. c.0 < 1024) cells }
        requires members { (c : CellNo) → set.contains members c.0 ≡ has_cell cells c }
        ensures { result ≡ record { cells = cells; flows = [] } }
    {
        Crossing {
            cells,
            lines: Vec::new(alloc),
            free: members,
            has_rest: true,
        }
    }

    // The cells, ascending.
    pub(crate) fn cells(&self) -> &[CellNo]
        ensures { result.now ≡ self.now.cells }
    {
        self.cells.cells()
    }

    // How many flow lines there are.
    pub(crate) fn line_count(&self) -> usize
        ensures { result ≡ length self.now.flows }
    {
        self.lines.len()
    }

    // The number of the flow of a cell that is in this line, or in none.
    pub(crate) fn flow_number(&self, line: Option<u32>) -> usize
        ensures { result ≡ unwrap_or line (length self.now.flows) }
    {
        match line {
            Some(number) => number as usize,
            None => self.lines.len(),
        }
    }

    // How many flows there are, with the last one.
    pub(crate) fn flow_count(&self) -> usize
        ensures { result ≡ length (completed self.now).flows }
    {
        if self.lines.is_empty() {
            0
        } else {
            self.claim_count()
        }
    }

    // How many claims the crossing has.
    pub(crate) fn claim_count(&self) -> usize
        ensures { result ≡ claim_count_of (completed self.now) }
    {
        if self.has_rest {
            self.lines.len() + 1
        } else {
            self.lines.len()
        }
    }

    // Whether the cell is in the crossing, and in none of its lines.
    pub(crate) fn is_free(&self, cell: CellNo) -> bool
        requires { cell.0 < 1024 }
        ensures { result ≡ (has_cell self.now.cells cell && not (in_flow self.now.flows cell)) }
    {
        self.free.contains(cell.0)
    }

    // How many claims the crossing would have with one more line.
    pub(crate) fn claim_count_with(&self, line: &BitSet<16>) -> usize
        ensures { (cells : List CellNo) → ((c : CellNo) → set.contains line.now c.0 ≡ has_cell cells c) → result ≡ claim_count_of (completed (with_line self.now cells)) }
    {
        if leaves_rest(self.cells.cells(), &self.free, line) {
            self.lines.len() + 2
        } else {
            self.lines.len() + 1
        }
    }

    // Adds a line.
    pub(crate) fn add_line(&mut self, line: Path, members: &BitSet<16>) -> Result<(), AllocError>
        requires members { (c : CellNo) → set.contains members.now c.0 ≡ has_cell line c }
        requires known { All (λ c. c.0 < 1024) line }
        ensures ok { OnOk result (self.new ≡ with_line self.old line) }
        ensures err { OnErr result (self.new ≡ self.old) }
    {
        let rest = leaves_rest(self.cells.cells(), &self.free, members);
        self.lines.reserve(1)?;
        remove_all(&mut self.free, line.cells());
        self.lines.push(line).unwrap();
        self.has_rest = rest;
        Ok(())
    }

    // An equal crossing.
    pub(crate) fn copy(&self, alloc: Global) -> Result<Crossing, NoMemory>
        ensures { IfOk result (λ x. x ≡ self.now) }
    {
        Ok(Crossing {
            cells: Path::copy_of(alloc, self.cells.cells())?,
            lines: copy_paths(alloc, &self.lines)?,
            free: common(self.cells.cells(), &self.free),
            has_rest: self.has_rest,
        })
    }
}

// The cells that are in the set, as a set.
fn common(cells: &[CellNo], members: &BitSet<16>) -> BitSet<16>
    requires { All (λ c. c.0 < 1024) cells.now }
    ensures { (c : CellNo) → set.contains result c.0 ≡ (has_cell cells.now c && set.contains members.now c.0) }
{
    let mut found = BitSet::new();
    for cell in cells {
        if members.contains(cell.0) {
            found.insert(cell.0);
        }
    }
    found
}

// Takes the cells out of the set.
fn remove_all(free: &mut BitSet<16>, cells: &[CellNo])
    requires { All (λ c. c.0 < 1024) cells.now }
    ensures { (c : CellNo) → set.contains free.new c.0 ≡ (set.contains free.old c.0 && not (has_cell cells.now c)) }
{
    for cell in cells {
        free.remove(cell.0);
    }
}

// Whether each cell is in the crossing, and in none of its lines.
pub(crate) fn are_free(crossing: &Crossing, cells: &[CellNo]) -> bool
    requires { All (λ c. c.0 < 1024) cells.now }
    ensures { result ≡ list_all (λ c. has_cell crossing.now.cells c && not (in_flow crossing.now.flows c)) cells.now }
{
    cells.iter().all(|cell| crossing.is_free(*cell))
}

// Equal crossings.
pub(crate) fn copy_crossings(
    alloc: Global,
    crossings: &[Crossing],
) -> Result<Vec<Crossing>, NoMemory>
    ensures { IfOk result (λ v. v.items ≡ crossings.now) }
{
    let mut copies = Vec::with_capacity(alloc, crossings.len())?;
    for crossing in crossings {
        if copies.push(crossing.copy(alloc)?).is_err() {
            return Err(NoMemory);
        }
    }
    Ok(copies)
}

// Whether one of the free cells isn't in the line.
fn leaves_rest(cells: &[CellNo], free: &BitSet<16>, line: &BitSet<16>) -> bool
    requires { All (λ c. c.0 < 1024) cells.now }
    ensures { result ≡ list_any (λ c. set.contains free.now c.0 && not (set.contains line.now c.0)) cells.now }
{
    cells
        .iter()
        .any(|cell| free.contains(cell.0) && !line.contains(cell.0))
}
