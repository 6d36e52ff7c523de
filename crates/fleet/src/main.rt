//! The program `fleet`: its words, its standard input and its standard output, handed to
//! `fleet_cli::fleet`.
#![tactic(auto)]

use fleet_cli::fleet;
use fleet_io::{StdSink, StdSource};
use std::alloc::{AllocError, Global};
use std::env::Args;
use std::io::{ErrorKind, Input, Print};
use std::process::ExitCode;
use std::{env, io};

fn run(rt: &(impl Input + Print), alloc: Global, words: &[&str]) -> u8 {
    let mut source = StdSource::new(rt.reader());
    let mut sink = StdSink::new(io::writer(rt));
    fleet(alloc, words, &mut source, &mut sink)
}

// The first argument is the program's own name.
fn run_args(rt: &(impl Input + Print), alloc: Global, args: Args) -> Result<u8, AllocError> {
    let mut texts = Vec::new(alloc);
    for text in args.skip(1) {
        texts.push(text)?;
    }
    let mut words = Vec::new(alloc);
    for text in &texts {
        words.push(text.as_str())?;
    }
    Ok(run(rt, alloc, &words))
}

fn main(rt: HostRuntime) -> ExitCode {
    let alloc = rt.alloc();
    let status = match env::args(&rt) {
        Ok(args) => run_args(&rt, alloc, args).unwrap_or(1),
        // A word isn't UTF-8, so the words are no form.
        Err(error) if error.kind() == ErrorKind::InvalidData => run(&rt, alloc, &[]),
        Err(_) => 1,
    };
    ExitCode::from(status)
}
