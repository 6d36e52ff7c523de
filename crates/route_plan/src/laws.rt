//! What labels say of walks.

ghost use Rattle.std.specs.Prelude.{◌≡◌, ℕ, ◌≤◌, ◌<◌, Bool, List, Some, slice_get, true};
ghost use Rattle.fleet_base.specs.declared.numbers.CellNo.{CellNo};
ghost use Rattle.fleet_model.specs.Sites.{cell_count, Site, IsSite, IsWalk};
ghost use Rattle.fleet_model.specs.Routes.{leads_to, walk_cost};
ghost use Rattle.route_plan.specs.Labels.{label_of};

/// A label is what some walk from the cell to the goal past the cells to avoid costs, and each
/// such walk costs as much or more; where there is such a walk, there is a label.
pub fn labels_are_least_costs()
    ensures reached { (site : Site) (goal avoid : CellNo → Bool) (c : CellNo) (n : ℕ) → IsSite site →
        label_of site goal avoid c ≡ Some n →
        (walk : List CellNo) × (slice_get walk 0 ≡ Some c) × IsWalk site walk
        × (leads_to goal avoid walk ≡ true) × (walk_cost site walk ≡ n) }
    ensures least { (site : Site) (goal avoid : CellNo → Bool) (c : CellNo) (walk : List CellNo) → IsSite site →
        c.0 < cell_count site → slice_get walk 0 ≡ Some c → IsWalk site walk →
        leads_to goal avoid walk ≡ true →
        (n : ℕ) × (label_of site goal avoid c ≡ Some n) × (n ≤ walk_cost site walk) }
{}
