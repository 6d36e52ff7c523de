//! Journals of robots at a junction, in the middle of which, cell 1, three lanes meet.

use crate::junction::junction;
use coordinator::coordinator::Coordinator;
use coordinator::refused::NewRefused;
use fleet_base::entries::{Act, Entry};
use fleet_base::marks::Checkpoint;
use fleet_base::numbers::{CellNo, EventNo, RobotNo};
use fleet_base::path::{NoMemory, Path};
use fleet_base::robot_list::RobotList;
use journal_replay::refused::{EntriesRefused, ReplayRefused, ResumeRefused};
use journal_replay::replay::{replay, replay_entry, resume};
use site_map::site::Site;
use std::alloc::Global;
use std::test::Fail;

// The acts that can be in a journal of these tests.
#[derive(Clone, Copy)]
enum Told {
    Merged(u32, u32, u64),
    Deferred(u32, u32),
    Retried(u64),
    Canceled,
    Withdrawn(u32, u32),
    Reported(u64),
}

fn act(alloc: Global, told: Told) -> Result<Act, NoMemory> {
    Ok(match told {
        Told::Merged(from, to, first) => Act::Merged {
            route: Path::copy_of(alloc, &[CellNo(from), CellNo(to)])?,
            first: EventNo(first),
        },
        Told::Deferred(from, to) => Act::Deferred {
            route: Path::copy_of(alloc, &[CellNo(from), CellNo(to)])?,
            cycle: RobotList::new(),
        },
        Told::Retried(first) => Act::Retried {
            first: EventNo(first),
        },
        Told::Canceled => Act::Canceled,
        Told::Withdrawn(removed, end) => Act::Withdrawn {
            removed,
            end: CellNo(end),
        },
        Told::Reported(event) => Act::Reported {
            event: EventNo(event),
        },
    })
}

fn entries(alloc: Global, told: &[(u32, Told)]) -> Result<Vec<Entry>, NoMemory> {
    let mut entries = Vec::new(alloc);
    for (robot, told) in told {
        let entry = Entry {
            robot: RobotNo(*robot),
            act: act(alloc, *told)?,
        };
        if entries.push(entry).is_err() {
            return Err(NoMemory);
        }
    }
    Ok(entries)
}

// The replay of a journal of robots that start in cells 0 and 2.
fn replayed(alloc: Global, told: &[(u32, Told)]) -> Result<Coordinator, ReplayRefused> {
    let (Ok(site), Ok(entries)) = (junction(alloc), entries(alloc, told)) else {
        return Err(ReplayRefused::NoMemory);
    };
    if site.cell_count() != 4 {
        return Err(ReplayRefused::NoMemory);
    }
    replay(alloc, site, &[CellNo(0), CellNo(2)], 1_000_000, &entries)
}

// The place of the first entry that differs; 0 where there is none.
fn differs(alloc: Global, told: &[(u32, Told)]) -> u32 {
    match replayed(alloc, told) {
        Err(ReplayRefused::Differs { entry }) => entry,
        _ => 0,
    }
}

const RUN: [(u32, Told); 8] = [
    (0, Told::Merged(0, 1, 1)),
    (1, Told::Deferred(2, 1)),
    (0, Told::Reported(1)),
    (1, Told::Canceled),
    (1, Told::Deferred(2, 1)),
    (0, Told::Merged(1, 0, 4)),
    (0, Told::Withdrawn(3, 1)),
    (0, Told::Merged(1, 0, 7)),
];

#[test]
fn a_run_is_replayed(rt: HostRuntime) -> Result<(), Fail> {
    let fleet = replayed(rt.alloc(), &RUN).map_err(|_| "refused")?;
    assert_eq!(rt; fleet.journal().len(), 8);
    assert_eq!(rt; fleet.next_number(), EventNo(10));
    let more = [(0, Told::Merged(0, 1, 1)), (1, Told::Retried(4))];
    assert_eq!(rt; differs(rt.alloc(), &more), 2);
    Ok(())
}

#[test]
fn the_first_entry_that_differs_is_named(rt: HostRuntime) -> Result<(), Fail> {
    let alloc = rt.alloc();
    let merged = (0, Told::Merged(0, 1, 1));
    assert_eq!(rt; differs(alloc, &[(0, Told::Merged(0, 1, 2))]), 1);
    assert_eq!(rt; differs(alloc, &[(0, Told::Deferred(0, 1))]), 1);
    assert_eq!(rt; differs(alloc, &[(9, Told::Canceled)]), 1);
    assert_eq!(rt; differs(alloc, &[merged, merged]), 2);
    assert_eq!(rt; differs(alloc, &[merged, (0, Told::Reported(2))]), 2);
    assert_eq!(rt; differs(alloc, &[merged, (0, Told::Withdrawn(2, 0))]), 2);
    assert_eq!(rt; differs(alloc, &[merged, (0, Told::Withdrawn(3, 1))]), 2);
    assert_eq!(rt; differs(alloc, &[merged, (0, Told::Withdrawn(3, 0))]), 0);
    Ok(())
}

#[test]
fn entries_are_replayed_one_by_one(rt: HostRuntime) -> Result<(), Fail> {
    let (alloc, starts) = (rt.alloc(), [CellNo(0), CellNo(2)]);
    let site = junction(alloc)?;
    assert_eq!(rt; site.cell_count(), 4);
    let fleet = Coordinator::new(alloc, site, &starts, 100).map_err(|_| "new")?;
    let merged = Entry {
        robot: RobotNo(0),
        act: act(alloc, Told::Merged(0, 1, 1))?,
    };
    let fleet = replay_entry(fleet, &merged).map_err(|_| "differs")?;
    assert_eq!(rt; fleet.journal().len(), 1);
    let again = replay_entry(fleet, &merged).map(|fleet| fleet.journal().len());
    assert_eq!(rt; again, Err(EntriesRefused::Differs { entry: 2 }));
    Ok(())
}

#[test]
fn entries_are_resumed_from_a_checkpoint(rt: HostRuntime) -> Result<(), Fail> {
    let alloc = rt.alloc();
    let mut at = Vec::new(alloc);
    at.push(CellNo(1))?;
    let mut pending = Vec::new(alloc);
    pending.push(None)?;
    let from = Checkpoint {
        next: EventNo(4),
        at,
        pending,
    };
    let differs = Err(ResumeRefused::Differs { entry: 1 });
    for (first, next) in [(4, Ok(EventNo(7))), (5, differs)] {
        let site = junction(alloc)?;
        assert!(rt; site.cell_count() == 4);
        let told = entries(alloc, &[(0, Told::Merged(1, 0, first))])?;
        let resumed = resume(alloc, site, &from, 4, &told);
        assert_eq!(rt; resumed.map(|fleet| fleet.next_number()), next);
    }
    Ok(())
}

#[test]
fn starts_are_refused(rt: HostRuntime) -> Result<(), Fail> {
    let site = junction(rt.alloc())?;
    let none = replay(rt.alloc(), site, &[], 4, &[]);
    assert!(rt; matches!(none, Err(ReplayRefused::New(NewRefused::NoRobot))));
    Ok(())
}
