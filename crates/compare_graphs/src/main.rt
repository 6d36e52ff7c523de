//! Compares the two graphs of unfinished events on made-up steps. It prints how many steps of each
//! kind were made. The status is 1 where the graphs differ, and 2 where the steps weren't made.
//! The words are the number that the first run is drawn from, and how many runs there are to be.
#![tactic(auto)]

mod fitting;
mod pair;
mod steps;

use crate::steps::{Tally, make_steps};
use fleet_base::path::NoMemory;
use std::alloc::Global;
use std::env::Args;
use std::io::{Input, Print};
use std::process::ExitCode;
use std::{env, io};

// The number at the front of the words, or another where there is none.
fn number_of(words: &mut Args, other: u64) -> u64 {
    match words.next() {
        Some(word) => word.as_str().parse::<u64>().unwrap_or(other),
        None => other,
    }
}

// The steps of so many runs, up to the first behind which the graphs differ.
fn compare(alloc: Global, first: u64, runs: u64) -> Result<Tally, NoMemory> {
    let mut tally = Tally::new();
    for run in 0..runs {
        if tally.alike {
            make_steps(alloc, first.wrapping_add(run), &mut tally)?;
        }
    }
    Ok(tally)
}

fn tell(rt: &impl Print, tally: Tally) -> io::Result<u8> {
    println!(rt;
        "{} appends, {} finished events, {} cut tails",
        tally.appends, tally.finishes, tally.cuts
    )?;
    if tally.alike {
        println!(rt; "both graphs answer alike")?;
        return Ok(0);
    }
    println!(rt; "the graphs differ behind the last of these steps")?;
    Ok(1)
}

fn main(rt: HostRuntime) -> ExitCode {
    let Ok(mut words) = env::args(&rt) else {
        return ExitCode::from(2);
    };
    let _program = words.next();
    let first = number_of(&mut words, 1);
    let runs = number_of(&mut words, 20);
    let Ok(tally) = compare(rt.alloc(), first, runs) else {
        return ExitCode::from(2);
    };
    ExitCode::from(tell(&rt, tally).unwrap_or(2))
}
