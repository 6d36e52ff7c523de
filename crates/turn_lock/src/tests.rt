//! Two seats take turns at a list of numbers.

use crate::counted::Counted;
use crate::lock::TurnLock;
use std::test::Fail;

// Who had a turn, in order.
#[derive(Drop)]
struct Turns {
    seats: Vec<u32>,
}

impl Counted for Turns {
    type Entry = u32;

    type Fixed = ();

    ghost history = { λ turns. turns.seats.items };

    ghost maker = { λ seat. seat };

    ghost fixed = { λ turns. tt };

    fn count(&self) -> u64 {
        self.seats.len() as u64
    }
}

#[test]
fn seats_take_turns(rt: HostRuntime) -> Result<(), Fail> {
    let turns = Turns {
        seats: Vec::new(rt.alloc()),
    };
    let Ok((lock, mut first)) = TurnLock::set_up(rt.alloc(), turns) else {
        panic!(rt; "out of memory")
    };
    let mut second = lock.split(&mut first);
    assert_eq!(rt; (first.number(), second.number()), (0, 1));
    let mut turns = lock.take(&rt, &mut second);
    turns.seats.push(1)?;
    lock.give(&mut second, turns);
    let turns = lock.take(&rt, &mut first);
    assert_eq!(rt; turns.seats.len(), 1);
    lock.give(&mut first, turns);
    lock.join(&mut first, second);
    assert_eq!(rt; lock.close(first).seats.len(), 1);
    Ok(())
}
