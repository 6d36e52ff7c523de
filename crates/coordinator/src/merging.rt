//! Merges of routes, by whichever call.

ghost use Rattle.std.specs.Prelude.{◌≡◌, ◌<◌, ◌^◌, List, ◌∷◌, [], ◌++◌, length, vec_len, IfOk, OnOk, OnErr};
ghost use Rattle.std.specs.Option.{option_to_list};
ghost use Rattle.std.specs.Vec.{vec_capacity};
ghost use Rattle.fleet_base.specs.declared.numbers.EventNo.{EventNo};
ghost use Rattle.fleet_base.specs.declared.numbers.Kind.{Kind};
ghost use Rattle.fleet_model.specs.Calls.{first_of};
ghost use Rattle.fleet_model.specs.Lists.{when};
ghost use Rattle.fleet_model.specs.Segments.{mark_at};
ghost use Rattle.fleet_model.specs.States.{is_full, is_past};
ghost use Rattle.coordinator.specs.Books.{state_of, with_entries};
ghost use Rattle.coordinator.specs.Merging.{act_of, growth_of, span_from, WouldMerge};

use crate::coordinator::Coordinator;
use fleet_base::entries::{Act, Entry};
use fleet_base::limits::MAX_COUNT;
use fleet_base::marks::Mark;
use fleet_base::numbers::{CellNo, EventNo, Kind, RobotNo, Span};
use fleet_base::path::{NoMemory, Path};

// By which call a route is merged, with the route where the entry names it.
#[derive(Drop)]
pub(crate) enum Merging {
    Proposed(Path),
    Retried,
    Replanned(Path),
}

impl Merging {
    // What the entry tells.
    fn act(self, first: EventNo) -> Act
        ensures { result ≡ act_of self first }
    {
        match self {
            Merging::Proposed(route) => Act::Merged { route, first },
            Merging::Retried => Act::Retried { first },
            Merging::Replanned(route) => Act::Replanned { route, first },
        }
    }

    // By how much entries and what is owed grow where the route has so many events.
    fn growth(&self, events: usize) -> u64
        requires { events < 2 ^ 32 }
        ensures value { (first : EventNo) (kinds : List Kind) → length kinds ≡ events → result ≡ growth_of (act_of self.now first) kinds }
        ensures small { result < 2 ^ 33 }
    {
        match self {
            Merging::Proposed(_) => 1 + events as u64,
            Merging::Retried => events as u64,
            Merging::Replanned(_) => events as u64,
        }
    }
}

impl Coordinator {
    /// Whether there is no room for an outcome by which entries and what is owed grow by so much: 1 and
    /// the number of its events for a proposal that is merged, 2 for one that is deferred, and the
    /// number of the events for a retry and a replan.
    pub fn is_full(&self, growth: u64) -> bool
        requires { growth < 2 ^ 33 }
        ensures { result ≡ is_full (state_of self.now) growth }
    {
        let owed = self.tables.owed + growth;
        MAX_COUNT < self.journal.len() as u64 + owed
            || (self.is_past(growth)
                && (self.tables.graph.kept() != 0 || u64::from(self.cap) < owed))
    }

    // Whether an outcome by which entries and what is owed grow by so much would go above the cap of
    // the current segment.
    fn is_past(&self, growth: u64) -> bool
        requires { growth < 2 ^ 33 }
        ensures { result ≡ is_past (state_of self.now) growth }
    {
        self.base() + u64::from(self.cap) < self.journal.len() as u64 + self.tables.owed + growth
    }

    // The number of entries before the current segment.
    fn base(&self) -> u64
        ensures value { result ≡ (state_of self.now).base }
        ensures small { result < 2 ^ 32 }
    {
        match self.marks.last() {
            Some(mark) => mark.before,
            None => 0,
        }
    }

    // The mark of the segment that such an outcome opens. None where it goes into the current one.
    pub(crate) fn new_mark(&self, growth: u64) -> Option<Mark>
        requires { growth < 2 ^ 33 }
        ensures { result ≡ when (is_past (state_of self.now) growth) (mark_at (state_of self.now)) }
    {
        if self.is_past(growth) {
            Some(Mark {
                before: self.journal.len() as u64,
                next: self.next_number(),
            })
        } else {
            None
        }
    }

    // Puts what the robot does in a route into the plan, and the entry into the journal. It takes
    // beforehand the room of the entries that are owed then.
    pub(crate) fn merge_route(
        &mut self,
        robot: RobotNo,
        kinds: &[Kind],
        end: CellNo,
        how: Merging,
    ) -> Result<Span, NoMemory>
        requires { WouldMerge (state_of self.old) robot.0 kinds.now end
            (act_of how (first_of (state_of self.old))) }
        ensures span { IfOk result (λ span. span ≡ span_from (first_of (state_of self.old)) kinds.now) }
        ensures entry { OnOk result (self.new ≡ with_entries self.old (record {
          robot = robot;
          act = act_of how (first_of (state_of self.old));
        } ∷ [])) }
        ensures unchanged { OnErr result (self.new ≡ self.old) }
    {
        let mark = self.new_mark(how.growth(kinds.len()));
        self.journal
            .reserve(self.tables.owed as usize + kinds.len() + 1)?;
        self.marks.reserve(1)?;
        let (span, _route) = self.tables.settle(&self.site, robot, kinds, end)?;
        put_mark(&mut self.marks, mark);
        self.journal.push_reserved(Entry {
            robot,
            act: how.act(span.first),
        });
        Ok(span)
    }
}

// Puts the mark, where there is one, behind the others, in the room that was taken beforehand.
pub(crate) fn put_mark(marks: &mut Vec<Mark>, mark: Option<Mark>)
    requires { vec_len marks.old < vec_capacity marks.old }
    ensures { marks.new.items ≡ marks.old.items ++ option_to_list mark }
{
    if let Some(mark) = mark {
        marks.push_reserved(mark);
    }
}
