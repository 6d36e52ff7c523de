//! Queues of numbers, which are added at the end, and leave at either end, in constant time.
//! What can be added is one number for all queues.
#![tactic(auto)]

ghost use Rattle.std.specs.Prelude.{◌≡◌, ℕ, ◌+◌, ◌-◌, ◌<◌, ◌≤◌, ◌++◌, ◌∷◌, [], Some, None, length, drop, take, slice_get, slice_index_or, slice_set, replicate, IfOk, OnOk};
ghost use Rattle.number_queues.specs.Queues.{queue_of, HasSameQueues};

use std::alloc::{AllocError, Global};
use std::collections::VecDeque;
use std::marker::Model;

/// Queues of numbers. Queues are numbered from 0.
#[derive(Drop)]
pub struct NumberQueues {
    queues: Vec<VecDeque<u64>>,
    room: u32,
}

impl Model for NumberQueues {
    ghost use Rattle.std.specs.Prelude.{map};
    ghost use Rattle.number_queues.specs.Queues.{Queues, AreRoomy, items_of};

    ghost Value = { Queues };

    ghost view = { λ s. record { queues = map items_of s.queues.items; spare = s.room } };

    ghost invariant = { λ s. AreRoomy s.room s.queues.items };
}

impl NumberQueues {
    /// So many queues, all empty.
    pub fn new(alloc: Global, count: u32) -> Result<NumberQueues, AllocError>
        ensures { IfOk result (λ s. s.queues ≡ replicate count []) }
    {
        let mut queues = Vec::new(alloc);
        for _queue in 0..count {
            queues.push(VecDeque::new(alloc))?;
        }
        Ok(NumberQueues { queues, room: 0 })
    }

    /// The number at a place of the queue, from 0.
    pub fn get(&self, queue: u32, index: u32) -> Option<u64>
        requires { queue < length self.now.queues }
        ensures { result ≡ slice_get (queue_of queue self.now.queues) index }
    {
        self.queues[queue as usize].get(index as usize).copied()
    }

    /// How many numbers the queue has.
    pub fn len(&self, queue: u32) -> u32
        requires { queue < length self.now.queues }
        ensures { result ≡ length (queue_of queue self.now.queues) }
    {
        self.queues[queue as usize].len() as u32
    }

    /// Adds a number at the end of the queue. It takes no memory.
    pub fn push(&mut self, queue: u32, number: u64)
        requires queue { queue < length self.old.queues }
        requires room { 0 < self.old.spare }
        ensures queues { self.new.queues ≡ slice_set self.old.queues queue (queue_of queue self.old.queues ++ number ∷ []) }
        ensures spare { self.new.spare + 1 ≡ self.old.spare }
    {
        self.queues[queue as usize].push_back_reserved(number);
        self.room -= 1;
    }

    /// Takes away the first number of the queue.
    pub fn pop_front(&mut self, queue: u32)
        requires { queue < length self.old.queues }
        ensures queues { self.new.queues ≡ slice_set self.old.queues queue (drop 1 (queue_of queue self.old.queues)) }
        ensures spare { self.new.spare ≡ self.old.spare }
    {
        let _ = self.queues[queue as usize].pop_front();
    }

    /// Takes away the last number of the queue, and answers it.
    pub fn pop_back(&mut self, queue: u32) -> Option<u64>
        requires { queue < length self.old.queues }
        ensures queues { self.new.queues ≡ slice_set self.old.queues queue (take (length (queue_of queue self.old.queues) - 1) (queue_of queue self.old.queues)) }
        ensures last { result ≡ slice_get (queue_of queue self.old.queues) (length (queue_of queue self.old.queues) - 1) }
        ensures spare { self.new.spare ≡ self.old.spare }
    {
        self.queues[queue as usize].pop_back()
    }

    /// Empties all queues. The room stays.
    pub fn clear(&mut self)
        ensures queues { self.new.queues ≡ replicate (length self.old.queues) [] }
        ensures spare { self.new.spare ≡ self.old.spare }
    {
        for queue in 0..self.queues.len() {
            self.queues[queue].clear();
        }
    }

    /// Makes room for so many more numbers. Where it can't, the queues are as before.
    pub fn reserve(&mut self, more: u32) -> Result<(), AllocError>
        ensures room { OnOk result (more ≤ self.new.spare) }
        ensures unchanged { self.new.queues ≡ self.old.queues }
        ensures grows { self.old.spare ≤ self.new.spare }
    {
        if more <= self.room {
            return Ok(());
        }
        for queue in 0..self.queues.len() {
            if (u32::MAX - more) as usize <= self.queues[queue].len() {
                return Err(AllocError);
            }
            self.queues[queue].reserve(more as usize)?;
        }
        self.room = more;
        Ok(())
    }
}
