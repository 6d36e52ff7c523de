//! The end, the cell and the held claims of each robot.

ghost use Rattle.std.specs.Prelude.{◌≡◌, ◌<◌, ◌≤◌, length, map, IfOk, All, Some, slice_get};
ghost use Rattle.fleet_base.specs.Lists.{RiseFrom};
ghost use Rattle.fleet_model.specs.Sites.{footprint_of};
ghost use Rattle.site_map.specs.Claims.{site_of};
ghost use Rattle.robot_tables.specs.Robots.{after_report, holding_at, with_end, HasPlaceFor};

use fleet_base::held::Held;
use fleet_base::limits::MAX_ROBOTS;
use fleet_base::numbers::{CellNo, ClaimNo, Kind, RobotNo};
use fleet_base::path::NoMemory;
use site_map::site::Site;
use std::alloc::{AllocError, Global};
use std::marker::Model;

/// What is known of each robot beside the plan: the cell that it ends in, the cell that it is in
/// and the claims that it holds. Only `new` takes memory. Contracts see a list of each, with a
/// place for each robot.
#[derive(Drop)]
pub struct RobotTables {
    ends: Vec<CellNo>,
    places: Vec<CellNo>,
    holdings: Vec<Held>,
}

impl Model for RobotTables {
    ghost use Rattle.robot_tables.specs.Robots.{Robots};

    ghost Value = { Robots };

    ghost use Rattle.robot_tables.specs.Kept.{shown, IsKept};

    ghost view = { shown };

    ghost invariant = { IsKept };
}

impl RobotTables {
    /// Each robot ends and is in its start, and holds the footprint there.
    pub fn new(alloc: Global, site: &Site, starts: &[CellNo]) -> Result<RobotTables, NoMemory>
        requires cells { All (λ a. a.0 < site.now.cells) starts.now }
        requires few { length starts.now ≤ MAX_ROBOTS }
        ensures ends { IfOk result (λ robots. robots.ends ≡ starts.now) }
        ensures places { IfOk result (λ robots. robots.places ≡ starts.now) }
        ensures holdings { IfOk result (λ robots. robots.holdings
            ≡ map (footprint_of (site_of site.now)) starts.now) }
    {
        let mut holdings = Vec::with_capacity(alloc, starts.len())?;
        for start in starts {
            let held = held_of(site.footprint(*start).list());
            holdings.push(held).map_err(AllocError::from)?;
        }
        Ok(RobotTables {
            ends: Vec::from_slice(alloc, starts)?,
            places: Vec::from_slice(alloc, starts)?,
            holdings,
        })
    }

    /// The number of robots. There is a place for each robot in each table.
    pub fn count(&self) -> u32
        ensures ends { result ≡ length self.now.ends }
        ensures places { result ≡ length self.now.places }
        ensures holdings { result ≡ length self.now.holdings }
        ensures few { result ≤ MAX_ROBOTS }
    {
        self.ends.len() as u32
    }

    /// The cell that the robot ends in by the plan.
    pub fn end(&self, robot: RobotNo) -> CellNo
        requires { robot.0 < length self.now.ends }
        ensures { slice_get self.now.ends robot.0 ≡ Some result }
    {
        self.ends[robot.0 as usize]
    }

    /// The cell that the robot is in by what it reported.
    pub fn at(&self, robot: RobotNo) -> CellNo
        requires { robot.0 < length self.now.ends }
        ensures { slice_get self.now.places robot.0 ≡ Some result }
    {
        self.places[robot.0 as usize]
    }

    /// The claims that the robot holds by what it reported.
    pub fn held(&self, robot: RobotNo) -> &Held
        requires { robot.0 < length self.now.ends }
        ensures { slice_get self.now.holdings robot.0 ≡ Some result.now }
    {
        &self.holdings[robot.0 as usize]
    }

    /// The robot ends in this cell from now on.
    pub fn set_end(&mut self, robot: RobotNo, cell: CellNo)
        requires { robot.0 < length self.old.ends }
        ensures { self.new ≡ with_end self.old robot.0 cell }
    {
        self.ends[robot.0 as usize] = cell;
    }

    /// The robot has done this: it holds an acquired claim, is in the cell that it moved to, or
    /// holds a released claim no more.
    pub fn report(&mut self, robot: RobotNo, kind: Kind)
        requires known { robot.0 < length self.old.ends }
        requires place { HasPlaceFor (holding_at self.old robot.0) kind }
        ensures { self.new ≡ after_report self.old robot.0 kind }
    {
        let place = robot.0 as usize;
        match kind {
            Kind::Acquire(claim) => self.holdings[place].put(claim),
            Kind::Move(_, to) => self.places[place] = to,
            Kind::Release(claim) => self.holdings[place].remove(claim),
        }
    }
}

// The claims, which rise, as a list of held claims.
fn held_of(claims: &[ClaimNo]) -> Held
    requires rise { RiseFrom 0 claims.now }
    requires short { length claims.now ≤ 3 }
    ensures { result ≡ claims.now }
{
    let mut held = Held::new();
    for claim in claims {
        held.put(*claim);
    }
    held
}
