//! Missions: the legs of each robot.

ghost use Rattle.std.specs.Prelude.{◌≡◌, ◌<◌, ◌≤◌, ◌∷◌, ◌++◌, [], length, map, replicate, slice_set, slice_index_or, All, IfOk, OnOk, OnErr};
ghost use Rattle.std.specs.Option.{unwrap_or};
ghost use Rattle.fleet_base.specs.declared.limits.TheConstants.{MAX_LEGS};
ghost use Rattle.scenario.specs.Scenarios.{legs_of};

use fleet_base::numbers::RobotNo;
use fleet_base::path::NoMemory;
use site_map::goal::Goal;
use std::alloc::Global;
use std::marker::Model;

/// The legs of one mission, in order. Contracts see the list of their goals.
#[derive(Drop)]
pub struct Legs {
    pub(crate) goals: Vec<Goal>,
}

impl Model for Legs {
    ghost use Rattle.std.specs.Prelude.{List};
    ghost use Rattle.site_map.specs.declared.goal.Goal.{Goal};

    ghost Value = { List Goal };

    ghost view = { λ l. l.goals.items };
}

impl Legs {
    /// No legs. It takes no memory.
    pub fn new(alloc: Global) -> Legs
        ensures { result ≡ [] }
    {
        Legs {
            goals: Vec::new(alloc),
        }
    }

    /// One more leg. Where no memory is left, the legs stay as they were.
    pub fn push(&mut self, goal: Goal) -> Result<(), NoMemory>
        ensures ok { OnOk result (self.new ≡ self.old ++ goal ∷ []) }
        ensures err { OnErr result (self.new ≡ self.old) }
    {
        Ok(self.goals.extend_from_slice(&[goal])?)
    }

    /// Other legs behind these. Where no memory is left, the legs stay as they were.
    pub fn append(&mut self, more: &Legs) -> Result<(), NoMemory>
        ensures ok { OnOk result (self.new ≡ self.old ++ more.now) }
        ensures err { OnErr result (self.new ≡ self.old) }
    {
        Ok(self.goals.extend_from_slice(&more.goals)?)
    }

    // The legs, in order.
    pub(crate) fn goals(&self) -> &[Goal]
        ensures { result.now ≡ self.now }
    {
        &self.goals
    }

    /// How many legs there are.
    pub fn len(&self) -> usize
        ensures { result ≡ length self.now }
    {
        self.goals.len()
    }
}

/// The legs of each robot: for each robot, by its number, the list of its goals, of which there are
/// at most 64. Contracts see the list of these lists.
#[derive(Drop)]
pub struct Missions {
    pub(crate) robots: Vec<Legs>,
}

impl Model for Missions {
    ghost use Rattle.std.specs.Prelude.{List, All, ◌≤◌, length};
    ghost use Rattle.fleet_base.specs.declared.limits.TheConstants.{MAX_LEGS};
    ghost use Rattle.site_map.specs.declared.goal.Goal.{Goal};

    ghost Value = { List (List Goal) };

    ghost view = { λ m. m.robots.items };

    ghost invariant = { λ m. All (λ legs. length legs ≤ MAX_LEGS) m.robots.items };
}

impl Missions {
    /// Missions of so many robots, without a leg.
    pub fn new(alloc: Global, robots: u32) -> Result<Missions, NoMemory>
        ensures { IfOk result (λ missions. missions ≡ replicate robots []) }
    {
        let mut list = Vec::new(alloc);
        for _ in 0..robots {
            if list.push(Legs::new(alloc)).is_err() {
                return Err(NoMemory);
            }
        }
        Ok(Missions { robots: list })
    }

    /// Appends a leg to the mission of a robot, which has fewer than 64. Where no memory is left, the
    /// missions stay as they were.
    pub fn add(&mut self, robot: RobotNo, goal: Goal) -> Result<(), NoMemory>
        requires known { robot.0 < length self.old }
        requires room { length (legs_of self.old robot.0) < MAX_LEGS }
        ensures ok { OnOk result (self.new ≡ slice_set self.old robot.0 (legs_of self.old robot.0 ++ goal ∷ [])) }
        ensures err { OnErr result (self.new ≡ self.old) }
    {
        let legs = &mut self.robots[robot.0 as usize];
        legs.push(goal)
    }

    /// The legs of a robot, in order.
    pub fn legs(&self, robot: RobotNo) -> &[Goal]
        requires { robot.0 < length self.now }
        ensures legs { result.now ≡ legs_of self.now robot.0 }
        ensures few { length result.now ≤ MAX_LEGS }
    {
        self.robots[robot.0 as usize].goals()
    }

    /// The number of robots.
    pub fn robot_count(&self) -> usize
        ensures count { result ≡ length self.now }
        // No robot has more than 64 legs.
        ensures few { All (λ legs. length legs ≤ MAX_LEGS) self.now }
    {
        self.robots.len()
    }
}

/// The missions of robots of which these are the legs; a robot without any is given none.
pub fn missions_of(alloc: Global, given: Vec<Option<Legs>>) -> Result<Missions, NoMemory>
    requires { All (λ m. length (unwrap_or m []) ≤ MAX_LEGS) given.items }
    ensures { IfOk result (λ missions. missions ≡ map (λ m. unwrap_or m []) given.items) }
{
    let mut robots = Vec::new(alloc);
    for legs in given {
        if robots.push(legs.unwrap_or(Legs::new(alloc))).is_err() {
            return Err(NoMemory);
        }
    }
    Ok(Missions { robots })
}
