//! Made-up steps, drawn from a number.

ghost use Rattle.std.specs.Prelude.{◌<◌, ◌≤◌, length, IfOk};
ghost use Rattle.compare_graphs.specs.Pairs.{IsPair};

use crate::pair::Pair;
use fleet_base::numbers::{CellNo, ClaimGroup, ClaimNo, Kind, RobotNo};
use fleet_base::path::NoMemory;
use rand_core::utils::NextWord;
use rand_pcg::Pcg32;
use std::alloc::{AllocError, Global};

const STEPS: u32 = 400;

/// How many steps of each kind were made, and whether both graphs answered alike behind each.
#[derive(Clone, Copy, Debug, PartialEq, Eq)]
pub(crate) struct Tally {
    pub(crate) appends: u32,
    pub(crate) finishes: u32,
    pub(crate) cuts: u32,
    pub(crate) alike: bool,
}

impl Tally {
    /// No step yet.
    pub(crate) fn new() -> Tally {
        Tally {
            appends: 0,
            finishes: 0,
            cuts: 0,
            alike: true,
        }
    }
}

// One of the numbers below a bound.
fn draw(draws: &mut Pcg32, bound: u32) -> u32
    requires { 0 < bound }
    ensures { result < bound }
{
    draws.next_word() % bound
}

/// Makes the steps that are drawn from the number, and counts them: for up to 8 robots and up to 24
/// claims in a third as many groups. It ends at the first step behind which the graphs differ.
pub(crate) fn make_steps(alloc: Global, number: u64, tally: &mut Tally) -> Result<(), NoMemory> {
    let mut draws = Pcg32::new(number, 54);
    let robots = 1 + draw(&mut draws, 8);
    let groups = drawn_groups(alloc, &mut draws)?;
    let mut pair = Pair::new(alloc, robots, &groups)?;
    for _step in 0..STEPS {
        let alike = make_step(alloc, &mut pair, &mut draws, tally)?;
        if !alike || !pair.answers_alike() {
            tally.alike = false;
            return Ok(());
        }
    }
    Ok(())
}

// Up to 24 claims. Of two claims of a group, or of one that is alone, no two robots hold both.
fn drawn_groups(alloc: Global, draws: &mut Pcg32) -> Result<Vec<ClaimGroup>, AllocError>
    ensures { IfOk result (λ groups. length groups.items ≤ 24) }
{
    let claims = 3 + draw(draws, 22);
    let mut groups = Vec::new(alloc);
    for _claim in 0..claims {
        groups.push(ClaimGroup {
            group: draw(draws, claims / 3),
            alone: draw(draws, 2) == 0,
        })?;
    }
    Ok(groups)
}

// Makes one step: of ten, one appends, one cuts a tail, and the others finish an event. Answers
// whether both graphs number what is appended alike.
fn make_step(
    alloc: Global,
    pair: &mut Pair,
    draws: &mut Pcg32,
    tally: &mut Tally,
) -> Result<bool, NoMemory>
    requires { IsPair pair.old }
    ensures { IsPair pair.new }
{
    let robot = RobotNo(draw(draws, pair.robots));
    match draw(draws, 10) {
        0 => {
            tally.appends = tally.appends.saturating_add(1);
            let kinds = drawn_kinds(alloc, draws, pair.claims)?;
            pair.append(robot, &kinds)
        }
        1 => {
            let count = draw(draws, 12);
            let gone = pair.cut_tail(robot, count);
            tally.cuts = tally.cuts.saturating_add(u32::from(gone));
            Ok(true)
        }
        _ => {
            let done = pair.finish(robot);
            tally.finishes = tally.finishes.saturating_add(u32::from(done));
            Ok(true)
        }
    }
}

// What a robot is to do, up to 12 kinds: acquires, moves, and releases of claims that an acquire in
// front of them takes.
fn drawn_kinds(alloc: Global, draws: &mut Pcg32, claims: u32) -> Result<Vec<Kind>, AllocError> {
    let mut kinds = Vec::new(alloc);
    for place in 0..draw(draws, 13) {
        let kind = match draw(draws, 5) {
            0 | 1 => Kind::Acquire(ClaimNo(draw(draws, claims.max(1)))),
            2 => Kind::Move(CellNo(0), CellNo(1)),
            _ => release_at(&kinds, draw(draws, place + 1)),
        };
        kinds.push(kind)?;
    }
    Ok(kinds)
}

// The release of the claim that is acquired at that place, or a move where none is.
fn release_at(kinds: &[Kind], place: u32) -> Kind {
    match kinds.get(place as usize) {
        Some(Kind::Acquire(claim)) => Kind::Release(*claim),
        _ => Kind::Move(CellNo(0), CellNo(1)),
    }
}
