// A mission that is being read.
ghost use Rattle.std.specs.Prelude.{◌≡◌, ◌≤◌, ◌++◌, ◌∷◌, [], ◌+◌, ◌*◌, length, OnOk};
ghost use Rattle.scenario_reader.specs.MissionLines.{again_line, repeat_line, repeated, visit_line};
ghost use Rattle.scenario_reader.specs.Tables.{Gives};

use crate::named::{goal_named, number};
use crate::stop::Stop;
use crate::words::{Words, none, one};
use fleet_base::limits::MAX_LEGS;
use fleet_base::path::NoMemory;
use fleet_names::names::Names;
use fleet_names::thing::is_name;
use scenario::missions::Legs;
use site_lines::fault::Code;
use std::alloc::Global;
use std::marker::Model;
use std::mem;

// How often a block may stand, and how deep blocks may be.
const MAX_TIMES: u32 = 64;

const MAX_DEPTH: usize = 4;

// An open block: how often it stands, and the legs before it.
#[derive(Drop)]
pub(crate) struct Block {
    times: u32,
    before: Legs,
}

impl Model for Block {
    ghost use Rattle.scenario_reader.specs.States as states;

    ghost Value = { states.Block };

    ghost view = { λ b. record { times = b.times; before = b.before } };
}

// A mission that is open: its robot, the legs so far of the innermost open block, or of the mission
// where none is open, and the open blocks, of which the last is the innermost.
#[derive(Drop)]
pub(crate) struct Open {
    pub(crate) alloc: Global,
    pub(crate) robot: u32,
    pub(crate) legs: Legs,
    pub(crate) blocks: Vec<Block>,
}

impl Model for Open {
    ghost use Rattle.scenario_reader.specs.States.{Mission};

    ghost Value = { Mission };

    ghost use Rattle.scenario_reader.specs.Kept.{IsOpenShort};

    ghost view = { λ o. record { robot = o.robot; legs = o.legs; blocks = o.blocks.items } };

    ghost invariant = { λ o. IsOpenShort o.legs o.blocks.items };
}

impl Open {
    // The mission of a robot, without a leg yet.
    pub(crate) fn new(alloc: Global, robot: u32) -> Open
        ensures { result ≡ record { robot = robot; legs = []; blocks = [] } }
    {
        Open {
            alloc,
            robot,
            legs: Legs::new(alloc),
            blocks: Vec::new(alloc),
        }
    }

    // A line `visit`.
    pub(crate) fn visit(&mut self, names: &Names, words: &mut Words) -> Result<(), Stop>
        ensures { Gives (λ _. self.new) result (visit_line names.now self.old words.old) }
    {
        let name = one(words)?;
        if !is_name(name) {
            return Err(Stop::Bad(Code::S7));
        }
        let Some(goal) = goal_named(names, name) else {
            return Err(Stop::Bad(Code::S11));
        };
        if self.legs.len() >= MAX_LEGS as usize {
            return Err(Stop::Bad(Code::S19));
        }
        Ok(self.legs.push(goal)?)
    }

    // A line `repeat`.
    pub(crate) fn repeat(&mut self, words: &mut Words) -> Result<(), Stop>
        ensures { Gives (λ _. self.new) result (repeat_line self.old words.old) }
    {
        let word = one(words)?;
        let times = number(word, 1, MAX_TIMES)?;
        if self.blocks.len() >= MAX_DEPTH {
            return Err(Stop::Bad(Code::S18));
        }
        self.blocks.reserve(1)?;
        let before = mem::replace(&mut self.legs, Legs::new(self.alloc));
        self.blocks.push(Block { times, before }).unwrap();
        Ok(())
    }

    // A line `again`.
    pub(crate) fn again(&mut self, words: &mut Words) -> Result<(), Stop>
        ensures { Gives (λ _. self.new) result (again_line self.old words.old) }
    {
        none(words)?;
        let Some(block) = self.blocks.pop() else {
            return Err(Stop::Bad(Code::S18));
        };
        let Block { times, mut before } = block;
        if before.len() + times as usize * self.legs.len() > MAX_LEGS as usize {
            return Err(Stop::Bad(Code::S19));
        }
        append_times(&mut before, times, &self.legs)?;
        self.legs = before;
        Ok(())
    }
}

// Other legs behind these, so many times.
fn append_times(legs: &mut Legs, times: u32, more: &Legs) -> Result<(), NoMemory>
    ensures legs { OnOk result (legs.new ≡ legs.old ++ repeated times more.now) }
    ensures count { OnOk result (length legs.new ≡ length legs.old + times * length more.now) }
{
    for _ in 0..times {
        legs.append(more)?;
    }
    Ok(())
}
