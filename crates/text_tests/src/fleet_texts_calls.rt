// Each public call once, with ample memory.
use fleet_base::answers::{
    Block, CancelRefused, EventLook, Look, PendingLook, ProposeRefused, Proposed, ReplanRefused,
    ReportRefused, RetryRefused, UnknownRobot, WithdrawRefused, Withdrawn,
};
use fleet_base::entries::{Act, Entry};
use fleet_base::numbers::{CellNo, ClaimNo, Event, EventNo, Kind, RobotNo, Span};
use fleet_base::path::{NoMemory, Path};
use fleet_base::robot_list::RobotList;
use fleet_calls::answer::Answer;
use fleet_names::names::{NameRefused, Names};
use fleet_names::thing::Thing;
use fleet_texts::answers::push_answer;
use fleet_texts::journal::{print_entry, print_journal};
use fleet_texts::pushing::{push_decimal, push_text};
use fleet_texts::state::{
    push_end, push_event_line, push_header, push_holds_line, push_pending_line, push_robot_line,
};
use fleet_texts::words::push_claim;
use site_map::builder::SiteBuilder;
use site_map::refused::BuildRefused;
use site_map::site::Site;
use std::alloc::{AllocError, Global};
use std::test::Fail;

const A: CellNo = CellNo(0);

const B: CellNo = CellNo(1);

const C: CellNo = CellNo(2);

const R1: RobotNo = RobotNo(0);

const R2: RobotNo = RobotNo(1);

// Cells a to d, the crossing x, and two robots.
fn names(alloc: Global) -> Result<Names, NameRefused> {
    let mut names = Names::new(alloc);
    for name in ["a", "b", "c", "d"] {
        let number = names.count_cells();
        names.add(name.as_bytes(), Thing::Cell(number))?;
    }
    for name in ["r1", "r2"] {
        let number = names.count_robots();
        names.add(name.as_bytes(), Thing::Robot(number))?;
    }
    let number = names.count_crossings();
    names.add(b"x", Thing::Crossing(number))?;
    Ok(names)
}

// Four cells, and a crossing of b and c with a flow for each of them.
fn site(alloc: Global) -> Result<Site, BuildRefused> {
    let mut builder = SiteBuilder::new(alloc);
    for _ in 0..4 {
        builder.cell()?;
    }
    let crossing = builder.crossing(&[B, C])?;
    builder.flow(crossing, &[B])?;
    Ok(builder.finish())
}

// The cycle of the second robot and the first.
fn cycle() -> RobotList {
    let mut robots = RobotList::new();
    robots.push(R2);
    robots.push(R1);
    robots
}

fn block() -> Block {
    Block {
        claim: ClaimNo(5),
        by: R1,
        cycle: cycle(),
    }
}

fn entry(robot: RobotNo, act: Act) -> Entry {
    Entry { robot, act }
}

// An entry of each act.
fn entries(alloc: Global) -> Result<Vec<Entry>, AllocError> {
    let mut entries = Vec::new(alloc);
    let first = EventNo(1);
    let mut put = Vec::new(alloc);
    put.push(A)?;
    put.push(B)?;
    let route = Path::from_vec(put);
    entries.push(entry(R1, Act::Merged { route, first }))?;
    let cycle = cycle();
    let mut put = Vec::new(alloc);
    put.push(B)?;
    put.push(A)?;
    let route = Path::from_vec(put);
    entries.push(entry(R2, Act::Deferred { route, cycle }))?;
    entries.push(entry(R2, Act::Retried { first }))?;
    entries.push(entry(R1, Act::Canceled))?;
    entries.push(entry(R1, Act::Withdrawn { removed: 6, end: C }))?;
    let mut put = Vec::new(alloc);
    put.push(C)?;
    let route = Path::from_vec(put);
    entries.push(entry(R1, Act::Replanned { route, first }))?;
    entries.push(entry(R1, Act::Reported { event: first }))?;
    Ok(entries)
}

const LINES: [&str; 7] = [
    "merged r1 1 a b",
    "deferred r2 2 r2 r1 b a",
    "retried r2 1",
    "canceled r1",
    "withdrawn r1 6 c",
    "replanned r1 1 c",
    "reported r1 1",
];

#[test]
fn each_entry_has_its_line(rt: HostRuntime) -> Result<(), Fail> {
    let names = names(rt.alloc()).map_err(|_| "names")?;
    let entries = entries(rt.alloc())?;
    for (entry, line) in entries.iter().zip(LINES) {
        let text = print_entry(rt.alloc(), &names, entry)?;
        assert!(rt; text.as_slice() == line.as_bytes());
    }
    Ok(())
}

const JOURNAL: &str =
    "journal 1\nmerged r1 1 a b\ndeferred r2 2 r2 r1 b a\nretried r2 1\ncanceled r1\nwithdrawn r1 6 c\nreplanned r1 1 c\nreported r1 1\nend\n";

#[test]
fn a_journal_has_a_line_for_each_entry(rt: HostRuntime) -> Result<(), Fail> {
    let names = names(rt.alloc()).map_err(|_| "names")?;
    let text = print_journal(rt.alloc(), &names, &entries(rt.alloc())?)?;
    assert!(rt; text.as_slice() == JOURNAL.as_bytes());
    let text = print_journal(rt.alloc(), &names, &[])?;
    assert!(rt; text.as_slice() == b"journal 1\nend\n".as_slice());
    Ok(())
}

#[test]
fn a_claim_has_its_name_and_the_number_of_its_flow(rt: HostRuntime) -> Result<(), Fail> {
    let names = names(rt.alloc()).map_err(|_| "names")?;
    let site = site(rt.alloc()).map_err(|_| "site")?;
    let mut text = Vec::new(rt.alloc());
    for number in 0..7 {
        push_claim(&mut text, &names, &site, ClaimNo(number))?;
        push_text(&mut text, b" ")?;
    }
    assert!(rt; text.as_slice() == b"a b c d x:0 x:1  ".as_slice());
    Ok(())
}

// The lines of a state of one robot.
fn push_state(text: &mut Vec<u8>, names: &Names, site: &Site) -> Result<(), NoMemory> {
    let kinds = [
        Kind::Acquire(ClaimNo(1)),
        Kind::Move(A, B),
        Kind::Release(ClaimNo(4)),
    ];
    push_header(text, 9, EventNo(10))?;
    push_robot_line(text, names, R2, A, B)?;
    push_holds_line(text, names, site, &[ClaimNo(0), ClaimNo(4)])?;
    push_pending_line(text, names, Some(&[B, C]))?;
    push_pending_line(text, names, None)?;
    for kind in kinds {
        let event = Event {
            no: EventNo(8),
            robot: R2,
            kind,
        };
        push_event_line(text, names, site, &event)?;
    }
    push_end(text)
}

const STATE: &str =
    "state 1\nentries 9\nnext 10\nrobot r2 at a end b\nholds a x:0\npending b c\nevent 8 acquire b\nevent 8 move a b\nevent 8 release x:0\nend\n";

#[test]
fn a_state_has_its_lines(rt: HostRuntime) -> Result<(), Fail> {
    let names = names(rt.alloc()).map_err(|_| "names")?;
    let site = site(rt.alloc()).map_err(|_| "site")?;
    let mut text = Vec::new(rt.alloc());
    push_state(&mut text, &names, &site)?;
    assert!(rt; text.as_slice() == STATE.as_bytes());
    Ok(())
}

// Appends the lines of answers, with a line feed behind each.
fn push_answers(
    text: &mut Vec<u8>,
    names: &Names,
    site: &Site,
    answers: &[Answer],
) -> Result<(), NoMemory> {
    for answer in answers {
        push_answer(text, names, site, answer)?;
        push_text(text, b"\n")?;
    }
    Ok(())
}

// The lines of looks, one after the other.
fn push_looks(text: &mut Vec<u8>, names: &Names, site: &Site) -> Result<(), NoMemory> {
    let event = EventNo(10);
    let waiting = Look {
        at: C,
        end: A,
        left: 7,
        event: EventLook::Waits {
            event,
            on: EventNo(8),
        },
        pending: PendingLook::Blocked(block()),
    };
    let ready = Look {
        event: EventLook::Ready {
            event,
            kind: Kind::Move(A, B),
        },
        pending: PendingLook::Free,
        ..waiting
    };
    let nothing = Look {
        event: EventLook::Nothing,
        pending: PendingLook::Nothing,
        ..waiting
    };
    for look in [waiting, ready, nothing] {
        push_seen(text, names, site, look)?;
    }
    Ok(())
}

// The line of a look.
fn push_seen(text: &mut Vec<u8>, names: &Names, site: &Site, look: Look) -> Result<(), NoMemory> {
    push_answers(text, names, site, &[Answer::Look(Ok(look))])
}

const LOOKS: &str =
    "look at c end a left 7 next waits 10 on 8 pending blocked x:1 r1 cycle r2 r1\nlook at c end a left 7 next ready 10 move a b pending free\nlook at c end a left 7 next none pending none\n";

#[test]
fn a_look_shows_what_is_next_and_pending(rt: HostRuntime) -> Result<(), Fail> {
    let names = names(rt.alloc()).map_err(|_| "names")?;
    let site = site(rt.alloc()).map_err(|_| "site")?;
    let mut text = Vec::new(rt.alloc());
    push_looks(&mut text, &names, &site)?;
    assert!(rt; text.as_slice() == LOOKS.as_bytes());
    Ok(())
}

fn push_accepted(text: &mut Vec<u8>, names: &Names, site: &Site) -> Result<(), NoMemory> {
    let span = Span {
        first: EventNo(1),
        last: EventNo(6),
    };
    let answers = [
        Answer::Propose(Ok(Proposed::Merged(span))),
        Answer::Propose(Ok(Proposed::Deferred(block()))),
        Answer::Retry(Ok(span)),
        Answer::Cancel(Ok(())),
        Answer::Withdraw(Ok(Withdrawn { removed: 6, end: A })),
        Answer::Replan(Ok(span)),
        Answer::Report(Ok(())),
    ];
    push_answers(text, names, site, &answers)
}

const ACCEPTED: &str =
    "merged 1 6\ndeferred x:1 r1 cycle r2 r1\nmerged 1 6\ncanceled\nwithdrawn 6 a\nmerged 1 6\nreported\n";

#[test]
fn accepted_calls_have_their_lines(rt: HostRuntime) -> Result<(), Fail> {
    let names = names(rt.alloc()).map_err(|_| "names")?;
    let site = site(rt.alloc()).map_err(|_| "site")?;
    let mut text = Vec::new(rt.alloc());
    push_accepted(&mut text, &names, &site)?;
    assert!(rt; text.as_slice() == ACCEPTED.as_bytes());
    Ok(())
}

fn push_refusals(text: &mut Vec<u8>, names: &Names, site: &Site) -> Result<(), NoMemory> {
    let next = Some(EventNo(1));
    let answers = [
        Answer::Propose(Err(ProposeRefused::HasPending)),
        Answer::Propose(Err(ProposeRefused::Short)),
        Answer::Propose(Err(ProposeRefused::TooLong)),
        Answer::Propose(Err(ProposeRefused::NoLink { at: 1 })),
        Answer::Propose(Err(ProposeRefused::BadStart { end: A })),
        Answer::Propose(Err(ProposeRefused::Full)),
        Answer::Report(Err(ReportRefused::NotNext { next })),
        Answer::Report(Err(ReportRefused::NotNext { next: None })),
        Answer::Report(Err(ReportRefused::Early { on: EventNo(6) })),
        Answer::Retry(Err(RetryRefused::StillDeferred(block()))),
        Answer::Cancel(Err(CancelRefused::NoPending)),
        Answer::Withdraw(Err(WithdrawRefused::Nothing)),
        Answer::Replan(Err(ReplanRefused::AtGoal)),
        Answer::Replan(Err(ReplanRefused::NoDetour)),
        Answer::Look(Err(UnknownRobot)),
    ];
    push_answers(text, names, site, &answers)
}

const REFUSALS: &str =
    "refused pending\nrefused short\nrefused long\nrefused no link 1\nrefused start a\nrefused full\nrefused next 1\nrefused next none\nrefused early 6\nstill x:1 r1 cycle r2 r1\nrefused no pending\nrefused nothing\nrefused at goal\nrefused no detour\nrefused robot\n";

#[test]
fn refusals_have_their_lines(rt: HostRuntime) -> Result<(), Fail> {
    let names = names(rt.alloc()).map_err(|_| "names")?;
    let site = site(rt.alloc()).map_err(|_| "site")?;
    let mut text = Vec::new(rt.alloc());
    push_refusals(&mut text, &names, &site)?;
    assert!(rt; text.as_slice() == REFUSALS.as_bytes());
    Ok(())
}

#[test]
fn a_number_is_appended(rt: HostRuntime) -> Result<(), Fail> {
    let mut text = Vec::new(rt.alloc());
    push_decimal(&mut text, 120)?;
    assert!(rt; text.as_slice() == b"120".as_slice());
    Ok(())
}
