//! The search for the least labels.

ghost use Rattle.std.specs.Prelude.{◌≡◌, ◌+◌, ◌<◌, ◌≤◌, ◌∷◌, Bool, ◌&&◌, not, Some, length, IfOk, OnOk, OnErr, Contains};
ghost use Rattle.std.specs.BinaryHeap.{heap_items};
ghost use Rattle.fleet_base.specs.declared.limits.TheConstants.{MAX_CELLS};
ghost use Rattle.fleet_base.specs.declared.numbers.CellNo.{CellNo};
ghost use Rattle.fleet_model.specs.Sites.{IsSite, Site as PlainSite};
ghost use Rattle.site_map.specs.Claims.{site_of};
ghost use Rattle.route_plan.specs.declared.incoming.Entry.{Entry};
ghost use Rattle.route_plan.specs.Labels.{has, label_at, label_of};
ghost use Rattle.route_plan.specs.Incoming.{row_at, AreIncoming};
ghost use Rattle.route_plan.specs.Search.{open_at, work, AreLow, IsBegun, IsLowered, IsSearch, IsSettled};

use crate::cell_set::CellSet;
use crate::incoming::{Entry, Incoming, Row};
use fleet_base::numbers::CellNo;
use site_map::site::Site;
use std::alloc::{AllocError, Global};
use std::cmp::Reverse;
use std::collections::BinaryHeap;

// The labels that were found so far, and the cells whose links back are still to be looked at, the
// one with the least label first. A cell stands open once more each time that its label falls, and
// only its last label counts.
#[derive(Drop)]
struct Search {
    labels: Vec<Option<u64>>,
    queue: BinaryHeap<Reverse<(u64, u32)>>,
}

// The least cost from each cell to the goal past the cells to avoid, by Dijkstra's algorithm from
// the goal over links taken backwards.
pub(crate) fn least_labels(
    site: &Site,
    incoming: &Incoming,
    goal: &CellSet,
    avoid: &CellSet,
    alloc: Global,
) -> Result<Vec<Option<u64>>, AllocError>
    requires { AreIncoming (site_of site.now) incoming.now }
    ensures least { IfOk result (λ labels. (c : CellNo) → label_at labels.items c ≡ label_of (site_of site.now) (has goal.now) (has avoid.now) c) }
    ensures site { IsSite (site_of site.now) }
{
    let count = site.cell_count();
    let rows = incoming.rows();
    let mut search = Search::from_goal(count, goal, avoid, alloc)?;
    while let Some(Reverse((label, number))) = search.queue.pop() {
        search.visit(CellNo(number), label, rows, avoid)?;
    }
    Ok(search.labels)
}

// Whether the cell is one of the goal that isn't to be avoided.
fn is_free_goal(cell: CellNo, goal: &CellSet, avoid: &CellSet) -> bool
    requires { cell.0 < MAX_CELLS }
    ensures { result ≡ (has goal.now cell && not (has avoid.now cell)) }
{
    goal.holds(cell) && !avoid.holds(cell)
}

impl Search {
    // Only the cells of the goal that aren't to be avoided have labels, and they stand open.
    fn from_goal(
        count: u32,
        goal: &CellSet,
        avoid: &CellSet,
        alloc: Global,
    ) -> Result<Search, AllocError>
        requires { count ≤ MAX_CELLS }
        ensures { IfOk result (λ s. IsBegun count (has goal.now) (has avoid.now) s.labels.items (heap_items s.queue)) }
    {
        let mut labels = Vec::with_capacity(alloc, count as usize)?;
        let mut queue = BinaryHeap::new(alloc);
        for number in 0..count {
            if is_free_goal(CellNo(number), goal, avoid) {
                queue.push(Reverse((0, number)))?;
                labels.push(Some(0))?;
            } else {
                labels.push(None)?;
            }
        }
        Ok(Search { labels, queue })
    }

    // Looks back from a cell that stood open with this label, if that is still its label.
    fn visit(
        &mut self,
        cell: CellNo,
        label: u64,
        rows: &[Row],
        avoid: &CellSet,
    ) -> Result<(), AllocError>
        requires known { cell.0 < length self.old.labels.items }
        requires rows { length rows.now ≡ length self.old.labels.items }
        requires froms { (b : CellNo) (e : Entry) → Contains (row_at rows.now b) e → e.from.0 < length self.old.labels.items }
        requires low { AreLow self.old.labels.items }
        ensures kept { (site : PlainSite) (goal : CellNo → Bool) → IsSite site → AreIncoming site rows.now →
            IsSettled site goal (has avoid.now) self.old.labels.items (open_at label cell ∷ heap_items self.old.queue) →
            OnOk result (IsSettled site goal (has avoid.now) self.new.labels.items (heap_items self.new.queue)) }
        ensures long { length self.new.labels.items ≡ length self.old.labels.items }
        ensures low { AreLow self.new.labels.items }
        ensures nearer { OnOk result (work self.new.labels.items (heap_items self.new.queue) ≤ work self.old.labels.items (heap_items self.old.queue)) }
    {
        let at = cell.0 as usize;
        if self.labels[at] == Some(label) {
            self.look_back(cell, label, rows[at].entries(), avoid)?;
        }
        Ok(())
    }

    // Lowers the labels of the cells that the links to this one lead from, where they give less.
    fn look_back(
        &mut self,
        cell: CellNo,
        label: u64,
        row: &[Entry],
        avoid: &CellSet,
    ) -> Result<(), AllocError>
        requires known { label_at self.old.labels.items cell ≡ Some label }
        requires froms { (e : Entry) → Contains row.now e → e.from.0 < length self.old.labels.items }
        requires low { AreLow self.old.labels.items }
        ensures kept { (site : PlainSite) (goal : CellNo → Bool) → IsSite site →
            IsSearch site goal (has avoid.now) cell label row.now self.old.labels.items (heap_items self.old.queue) →
            OnOk result (IsSettled site goal (has avoid.now) self.new.labels.items (heap_items self.new.queue)) }
        ensures long { length self.new.labels.items ≡ length self.old.labels.items }
        ensures low { AreLow self.new.labels.items }
        ensures nearer { OnOk result (work self.new.labels.items (heap_items self.new.queue) ≤ work self.old.labels.items (heap_items self.old.queue)) }
    {
        for entry in row {
            if !avoid.holds(entry.from) {
                self.lower(entry.from, label + u64::from(entry.cost))?;
            }
        }
        Ok(())
    }

    // Lowers the label of a cell to this one, where that is less.
    fn lower(&mut self, cell: CellNo, label: u64) -> Result<(), AllocError>
        requires { cell.0 < length self.old.labels.items }
        ensures lowered { OnOk result (IsLowered cell label self.old.labels.items (heap_items self.old.queue) self.new.labels.items (heap_items self.new.queue)) }
        ensures kept { OnErr result (self.new.labels.items ≡ self.old.labels.items) }
    {
        let at = cell.0 as usize;
        if self.labels[at].is_none_or(|old| label < old) {
            self.queue.push(Reverse((label, cell.0)))?;
            self.labels[at] = Some(label);
        }
        Ok(())
    }
}
