//! What the check of a shape accepts, and which orders have no clash.

ghost use Rattle.std.specs.Prelude.{◌≡◌, ◌↔◌, ◌<◌, ℕ, List, None, length};
ghost use Rattle.fleet_base.specs.declared.numbers.CellNo.{CellNo};
ghost use Rattle.fleet_base.specs.declared.numbers.Event.{Event};
ghost use Rattle.fleet_model.specs.Lists.{In};
ghost use Rattle.fleet_model.specs.Sites.{Site, IsSite};
ghost use Rattle.fleet_model.specs.Replays.{opening, IsLegal};
ghost use Rattle.fleet_model.specs.Plans.{Fleet, IsRoute};
ghost use Rattle.plan_events.specs.Clashes.{order_clash};
ghost use Rattle.plan_events.specs.Shapes.{shape_cause, IsShape};

/// Cells without a refusal are a walk of 2 to 1,024 cells of the site.
pub fn shapes_are_walks()
    ensures { (site : Site) (cells : List CellNo) → shape_cause site cells ≡ None → IsShape site cells }
{}

/// A legal route of a robot, over a site that the rules speak of, has no refusal.
pub fn legal_routes_have_shapes()
    ensures { (m : Fleet) (r : ℕ) (route : List CellNo) → IsSite m.site → IsRoute m r route →
        shape_cause m.site route ≡ None }
{}

/// Events of robots that have starts are legal in their order exactly where the order has no clash.
pub fn legal_orders_have_no_clash()
    ensures { (site : Site) (starts : List CellNo) (events : List Event) →
        ((e : Event) → In e events → e.robot.0 < length starts) →
        (order_clash site (length starts) (opening site starts) events ≡ None)
        ↔ IsLegal site (opening site starts) events }
{}
