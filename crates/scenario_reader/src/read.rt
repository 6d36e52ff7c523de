//! Reading scenarios.

ghost use Rattle.std.specs.Prelude.{◌^◌, ◌-◌, ◌<◌, length, Ok};
ghost use Rattle.site_lines.specs.Readings.{onward};
ghost use Rattle.scenario_reader.specs.Kept.{IsReached};
ghost use Rattle.scenario_reader.specs.Readers.{front_value, state_of};
ghost use Rattle.scenario_reader.specs.Reading.{done, front_of, scenario_of};
ghost use Rattle.scenario_reader.specs.Tables.{GivesAt};

use crate::reader::Reader;
use crate::stop::ReadRefused;
use scenario::scenario::Scenario;
use site_lines::fault::{At, Code};
use site_lines::line::line_at;
use std::alloc::Global;

/// A scenario that something else may follow.
#[derive(Drop)]
pub struct Front {
    /// The scenario.
    pub scenario: Scenario,
    /// How many bytes its lines have, up to its `end` line and with their line feeds.
    pub used: usize,
    /// How many lines these are.
    pub lines: u32,
}

/// The scenario of a whole text, or the text's first bad line with the line's least code. A line
/// behind the `end` line is bad unless it is blank.
///
/// The text has fewer than 4,294,967,295 bytes.
pub fn read_scenario(alloc: Global, bytes: &[u8]) -> Result<Scenario, ReadRefused>
    requires { length bytes.now < 2 ^ 32 - 1 }
    ensures { GivesAt (λ scenario. scenario) result (scenario_of bytes.now) }
{
    let mut reader = Reader::Header;
    let mut number = 1u32;
    let mut at = 0;
    while let Some(line) = line_at(bytes, at) {
        reader = match reader.line(alloc, &bytes[line.start..line.stop]) {
            Ok(next) => next,
            Err(stop) => return Err(stop.at(number)),
        };
        number += 1;
        at = line.next;
    }
    finish(reader, number)
}

/// The scenario that a text begins with, up to its `end` line, or the text's first bad line with the
/// line's least code. Nothing behind the `end` line is looked at.
///
/// The text has fewer than 4,294,967,295 bytes.
pub fn read_front(alloc: Global, bytes: &[u8]) -> Result<Front, ReadRefused>
    requires { length bytes.now < 2 ^ 32 - 1 }
    ensures { GivesAt front_value result (front_of bytes.now) }
{
    let mut reader = Reader::Header;
    let mut lines = 0u32;
    let mut at = 0;
    while let Some(line) = line_at(bytes, at) {
        lines += 1;
        reader = match reader.line(alloc, &bytes[line.start..line.stop]) {
            Ok(next) => next,
            Err(stop) => return Err(stop.at(lines)),
        };
        at = line.next;
        if reader.is_ended() {
            let scenario = finish(reader, lines)?;
            return Ok(Front {
                scenario,
                used: at,
                lines,
            });
        }
    }
    Err(ReadRefused::Bad(At {
        line: lines + 1,
        code: Code::S22,
    }))
}

// What the end of the input makes of a reader, where it would be the line with this number.
fn finish(reader: Reader, number: u32) -> Result<Scenario, ReadRefused>
    requires { IsReached (state_of reader) }
    ensures { GivesAt (λ scenario. scenario) result (onward (done (state_of reader)) number (λ t. Ok t)) }
{
    let Reader::Ended(fleet) = reader else {
        return Err(ReadRefused::Bad(At {
            line: number,
            code: Code::S22,
        }));
    };
    match fleet.scenario() {
        Ok(scenario) => Ok(scenario),
        Err(_) => Err(ReadRefused::NoMemory),
    }
}
