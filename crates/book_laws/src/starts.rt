//! Which clash of starts a coordinator is refused for.

ghost use Rattle.std.specs.Prelude.{◌≡◌, ◌≢◌, ◌↔◌, List, [], None, Some};
ghost use Rattle.fleet_base.specs.declared.numbers.CellNo.{CellNo};
ghost use Rattle.fleet_base.specs.declared.numbers.ClaimNo.{ClaimNo};
ghost use Rattle.fleet_base.specs.declared.numbers.RobotNo.{RobotNo};
ghost use Rattle.site_map.specs.Claims.{site_of};
ghost use Rattle.coordinator.specs.declared.refused.NewRefused.TheVariants.{Clash, NoRobot};
ghost use Rattle.coordinator.specs.Openings.{AreApart, IsLeastClash, clash_from, opening_cause};

use site_map::site::Site;

/// A clash of starts is named exactly where it is the least: of the least two robots whose starts
/// conflict, and of the least claim of the lesser one by which they do. None is named exactly where
/// no two starts conflict. So it is of the search for a clash, and of the first cause for which no
/// coordinator is made (`cause_`), where there is a robot.
pub fn clashes_are_least(site: &Site)
    ensures none { (starts : List CellNo) → (clash_from (site_of site.now) 0 starts ≡ None) ↔ AreApart (site_of site.now) starts }
    ensures named { (starts : List CellNo) (one other : RobotNo) (claim : ClaimNo) →
        (clash_from (site_of site.now) 0 starts ≡ Some (Clash one other claim)) ↔ IsLeastClash (site_of site.now) starts one.0 other.0 claim }
    ensures cause_none { (starts : List CellNo) → (opening_cause (site_of site.now) starts ≡ None) ↔ ((starts ≢ []) × AreApart (site_of site.now) starts) }
    ensures cause_no_robot { (starts : List CellNo) → (opening_cause (site_of site.now) starts ≡ Some NoRobot) ↔ (starts ≡ []) }
    ensures cause_clash { (starts : List CellNo) (one other : RobotNo) (claim : ClaimNo) →
        (opening_cause (site_of site.now) starts ≡ Some (Clash one other claim)) ↔ IsLeastClash (site_of site.now) starts one.0 other.0 claim }
{
    let _cells = site.cell_count(); // with its clauses: every site is one that the rules speak of
}
