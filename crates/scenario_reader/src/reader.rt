// A reader of a scenario's lines.
ghost use Rattle.std.specs.Prelude.{◌≡◌, ◌<◌, length};
ghost use Rattle.scenario.specs.Scenarios.{NamesAll};
ghost use Rattle.scenario_reader.specs.Kept.{IsBare, IsReached, IsSound};
ghost use Rattle.scenario_reader.specs.Readers.{state_of};
ghost use Rattle.scenario_reader.specs.Reading.{added_by, declared_by, fleet_line, header_line, is_ended, keyword_line, leg_line, site_line, step};
ghost use Rattle.scenario_reader.specs.Tables.{Gives};

use crate::fleet::Fleet;
use crate::ground::Ground;
use crate::keyword::{Keyword, LegWord, SiteWord, keyword_of};
use crate::mission::Open;
use crate::stop::Stop;
use crate::words::Words;
use fleet_names::names::Names;
use site_lines::fault::Code;
use site_lines::line::{is_too_long, without_return};
use site_lines::word::has_bad_byte;
use std::alloc::Global;

// Where a reader is between two lines, with what it has read.
#[derive(Drop)]
pub(crate) enum Reader {
    // Every line so far is blank.
    Header,
    // Among the site lines; the flag says whether flows may stand there.
    Site(Ground, bool),
    // Among robot lines and missions.
    Fleet(Fleet),
    // In a mission.
    Mission(Fleet, Open),
    // Behind the end.
    Ended(Fleet),
}

impl Reader {
    // What a line makes of the reader, or the line's least code.
    pub(crate) fn line(self, alloc: Global, raw: &[u8]) -> Result<Reader, Stop>
        requires { IsReached (state_of self) }
        ensures { Gives state_of result (step (state_of self) raw.now) }
    {
        let line = without_return(raw);
        if is_too_long(line) {
            return Err(Stop::Bad(Code::S1));
        }
        if has_bad_byte(line) {
            return Err(Stop::Bad(Code::S2));
        }
        let mut words = Words::of(line);
        match words.next() {
            Some(word) => self.worded(alloc, word, &mut words),
            None => Ok(self),
        }
    }

    // What a line that isn't blank makes of the reader, or the line's least code.
    fn worded(self, alloc: Global, word: &[u8], words: &mut Words) -> Result<Reader, Stop>
        requires { IsReached (state_of self) }
        ensures { Gives state_of result (keyword_line (state_of self) word.now words.old) }
    {
        match self {
            Reader::Header => header_line(alloc, word, words),
            Reader::Site(declared, flows) => site_line(declared, flows, keyword_of(word), words),
            Reader::Fleet(fleet) => fleet_line(fleet, keyword_of(word), words),
            Reader::Mission(fleet, mission) => leg_line(fleet, mission, keyword_of(word), words),
            Reader::Ended(_) => Err(Stop::Bad(Code::S21)),
        }
    }

    // Whether the end was read.
    pub(crate) fn is_ended(&self) -> bool
        ensures { result ≡ is_ended (state_of self.now) }
    {
        matches!(self, Reader::Ended(_))
    }
}

// The header.
fn header_line(alloc: Global, word: &[u8], words: &mut Words) -> Result<Reader, Stop>
    ensures { Gives state_of result (header_line word.now words.old) }
{
    let Some(version) = words.next() else {
        return Err(Stop::Bad(Code::S3));
    };
    if words.next().is_some() || word != b"fleet".as_slice() {
        return Err(Stop::Bad(Code::S3));
    }
    match version {
        b"1" => Ok(Reader::Site(Ground::new(alloc), false)),
        b"2" => Ok(Reader::Site(Ground::new(alloc), true)),
        _ => Err(Stop::Bad(Code::S3)),
    }
}

// A line among the site lines.
fn site_line(
    mut declared: Ground,
    flows: bool,
    keyword: Option<Keyword>,
    words: &mut Words,
) -> Result<Reader, Stop>
    requires { IsBare declared }
    ensures { Gives state_of result (site_line flows declared keyword words.old) }
{
    let Some(Keyword::Site(word)) = keyword else {
        return fleet_line(Fleet::of(declared), keyword, words);
    };
    if word == SiteWord::Flow && !flows {
        return Err(Stop::Bad(Code::S4));
    }
    declare(&mut declared, word, words)?;
    Ok(Reader::Site(declared, flows))
}

// A site line.
fn declare(declared: &mut Ground, word: SiteWord, words: &mut Words) -> Result<(), Stop>
    requires { NamesAll declared.old.names declared.old.site 0 }
    ensures { Gives (λ _. declared.new) result (declared_by declared.old word words.old) }
{
    match word {
        SiteWord::Cell => declared.cell(words),
        SiteWord::Crossing => declared.crossing(words),
        SiteWord::Area => declared.area(words),
        SiteWord::Flow => declared.flow(words),
        SiteWord::Link => declared.link(words),
        SiteWord::Lane => declared.lane(words),
    }
}

// A line among robots and missions.
fn fleet_line(mut fleet: Fleet, keyword: Option<Keyword>, words: &mut Words) -> Result<Reader, Stop>
    requires { IsSound fleet }
    ensures { Gives state_of result (fleet_line fleet keyword words.old) }
{
    match keyword {
        Some(Keyword::Robot) => {
            fleet.robot(words)?;
            Ok(Reader::Fleet(fleet))
        }
        Some(Keyword::Mission) => {
            let mission = fleet.mission(words)?;
            Ok(Reader::Mission(fleet, mission))
        }
        Some(Keyword::End) => {
            fleet.end(words)?;
            Ok(Reader::Ended(fleet))
        }
        _ => Err(Stop::Bad(Code::S4)),
    }
}

// A line in a mission.
fn leg_line(
    mut fleet: Fleet,
    mut mission: Open,
    keyword: Option<Keyword>,
    words: &mut Words,
) -> Result<Reader, Stop>
    requires { mission.robot < length fleet.missions }
    ensures { Gives state_of result (leg_line fleet mission keyword words.old) }
{
    match keyword {
        Some(Keyword::Leg(word)) => {
            add_leg(&fleet.names, &mut mission, word, words)?;
            Ok(Reader::Mission(fleet, mission))
        }
        Some(Keyword::Done) => {
            fleet.done(mission, words)?;
            Ok(Reader::Fleet(fleet))
        }
        _ => Err(Stop::Bad(Code::S4)),
    }
}

// A line that adds to a mission.
fn add_leg(names: &Names, mission: &mut Open, word: LegWord, words: &mut Words) -> Result<(), Stop>
    ensures { Gives (λ _. mission.new) result (added_by names.now mission.old word words.old) }
{
    match word {
        LegWord::Visit => mission.visit(names, words),
        LegWord::Repeat => mission.repeat(words),
        LegWord::Again => mission.again(words),
    }
}
