//! A route with its cost and with labels that prove the cost.

ghost use Rattle.std.specs.Prelude.{◌≡◌, IfOk};
ghost use Rattle.route_plan.specs.Labels.{label_at};

use fleet_base::numbers::CellNo;
use fleet_base::path::{NoMemory, Path};
use std::alloc::Global;
use std::marker::Model;

/// The cells of a route, its cost, and a label for each cell of its site: the least cost from the
/// cell to the goal. It may be made of any parts, which `check_route` judges.
#[derive(Drop)]
pub struct Route {
    pub(crate) path: Path,
    pub(crate) cost: u64,
    // By the cells' numbers. A cell without a place has no label.
    pub(crate) labels: Vec<Option<u64>>,
}

impl Model for Route {
    ghost use Rattle.route_plan.specs.Labels.{LabelledRoute};

    ghost Value = { LabelledRoute };

    ghost view = { λ r. record { path = r.path; cost = r.cost; labels = r.labels.items } };
}

impl Route {
    /// A route of these parts. Its labels are those of the cells 0, 1 and so on; a cell without a
    /// place in the list has none.
    pub fn given(
        path: Path,
        cost: u64,
        labels: &[Option<u64>],
        alloc: Global,
    ) -> Result<Route, NoMemory>
        ensures { IfOk result (λ route. route ≡ record { path = path; cost = cost; labels = labels.now }) }
    {
        Ok(Route {
            path,
            cost,
            labels: Vec::from_slice(alloc, labels)?,
        })
    }

    /// The cells, from the first to the goal.
    pub fn cells(&self) -> &[CellNo]
        ensures { result.now ≡ self.now.path }
    {
        self.path.cells()
    }

    /// The sum of the costs of the route's links.
    pub fn cost(&self) -> u64
        ensures { result ≡ self.now.cost }
    {
        self.cost
    }

    /// The least cost from the cell to the goal; None where the cell has no label.
    pub fn label(&self, cell: CellNo) -> Option<u64>
        ensures { result ≡ label_at self.now.labels cell }
    {
        label_in(&self.labels, cell)
    }
}

/// For each cell of a site the least cost from it to a goal, where a walk leads there.
#[derive(Drop)]
pub struct Labels {
    // By the cells' numbers.
    pub(crate) labels: Vec<Option<u64>>,
}

impl Model for Labels {
    ghost use Rattle.std.specs.Prelude.{ℕ, List, Option};

    ghost Value = { List (Option ℕ) };

    ghost view = { λ l. l.labels.items };
}

impl Labels {
    /// The least cost from the cell to the goal; None where no walk leads there.
    pub fn label(&self, cell: CellNo) -> Option<u64>
        ensures { result ≡ label_at self.now cell }
    {
        label_in(&self.labels, cell)
    }
}

// The label of a cell in a list of them; none past its end.
pub(crate) fn label_in(labels: &[Option<u64>], cell: CellNo) -> Option<u64>
    ensures { result ≡ label_at labels.now cell }
{
    labels.get(cell.0 as usize).copied().flatten()
}
