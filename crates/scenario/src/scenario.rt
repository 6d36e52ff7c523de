//! A scenario: a site, the names of its things and of the robots, where each robot starts, and its
//! mission.

ghost use Rattle.std.specs.Prelude.{◌≡◌, ◌<◌, ◌≤◌, ℕ, false, None, length, map, All, AllPairs};
ghost use Rattle.fleet_base.specs.declared.limits.TheConstants.{MAX_ROBOTS};
ghost use Rattle.fleet_model.specs.Good.{IsOpening};
ghost use Rattle.site_map.specs.Claims.{site_of};
ghost use Rattle.scenario.specs.Scenarios.{do_conflict, IsMission, IsScenario, NamesAll};
ghost use Rattle.scenario.specs.Parts.{parts_value};

use crate::missions::Missions;
use fleet_base::numbers::CellNo;
use fleet_base::path::Path;
use fleet_names::names::Names;
pub use site_map::goal::Goal;
use site_map::site::Site;
use std::marker::Model;

/// A scenario. Contracts see its site, its names, the start of each robot and each robot's legs.
#[derive(Drop)]
pub struct Scenario {
    parts: Parts,
}

impl Model for Scenario {
    ghost use Rattle.scenario.specs.Scenarios.{ScenarioValue};

    ghost Value = { ScenarioValue };

    ghost use Rattle.scenario.specs.Parts.{parts_value};
    ghost use Rattle.scenario.specs.Scenarios.{IsScenario};

    ghost view = { λ s. parts_value s.parts };

    ghost invariant = { λ s. IsScenario (parts_value s.parts) };
}

/// What a scenario consists of.
#[derive(Drop)]
pub struct Parts {
    /// The site.
    pub site: Site,
    /// The names of the site's cells, crossings and areas, and of the robots.
    pub names: Names,
    /// The cell in which each robot starts, in the order of the robots.
    pub starts: Path,
    /// The legs of each robot.
    pub missions: Missions,
}

impl Scenario {
    /// The site.
    pub fn site(&self) -> &Site
        ensures { result.now ≡ self.now.site }
    {
        &self.parts.site
    }

    /// The names, which name just the site's cells, crossings and areas, and one robot for each start.
    pub fn names(&self) -> &Names
        ensures is { result.now ≡ self.now.names }
        ensures all { NamesAll self.now.names self.now.site (length self.now.starts) }
    {
        &self.parts.names
    }

    /// The cell in which each robot starts, in the order of the robots. There are 1 to 64 robots, and
    /// the footprints of their starts don't conflict.
    pub fn starts(&self) -> &[CellNo]
        ensures is { result.now ≡ self.now.starts }
        ensures some { 1 ≤ length self.now.starts }
        ensures few { length self.now.starts ≤ MAX_ROBOTS }
        ensures known { All (λ c. c.0 < self.now.site.cells) self.now.starts }
        ensures apart { AllPairs (λ a b. do_conflict self.now.site a b ≡ false) self.now.starts }
        // A run may open with these starts, whatever the cap.
        ensures opening { (cap : ℕ) → IsOpening (site_of self.now.site) self.now.starts (map (λ a. None) self.now.starts) 1 cap }
    {
        self.parts.starts.cells()
    }

    /// The legs of each robot: at most 64, each with a goal in the site.
    pub fn missions(&self) -> &Missions
        ensures is { result.now ≡ self.now.missions }
        ensures all { length self.now.missions ≡ length self.now.starts }
        ensures goals { All (IsMission self.now.site) self.now.missions }
    {
        &self.parts.missions
    }

    /// Its parts, which `of_parts` takes back.
    pub fn into_parts(self) -> Parts
        ensures is { parts_value result ≡ self }
        ensures scenario { IsScenario self }
    {
        self.parts
    }

    /// The scenario of these parts: 1 to 64 robots start in cells of the site whose footprints don't
    /// conflict, the names name just the site's cells, crossings and areas and one robot for each
    /// start, and there is a mission for each robot, whose goals are in the site.
    pub fn of_parts(parts: Parts) -> Scenario
        requires { IsScenario (parts_value parts) }
        ensures { result ≡ parts_value parts }
    {
        Scenario { parts }
    }
}
