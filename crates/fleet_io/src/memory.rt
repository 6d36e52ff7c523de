// Sources and sinks in memory.
ghost use Rattle.std.specs.Prelude.{◌≡◌, ℕ, ◌+◌, ◌-◌, ◌^◌, ◌≤◌, ◌<◌, List, [], ◌++◌, length, take, drop, min, vec_len, Some, None, IsTrue, IsOk, IsErr, IfOk, OnErr, IfSome, is_err};
ghost use Rattle.std.specs.declared.option.Option.{Option};
ghost use Rattle.std.specs.Io.{ReadsAtMost};
ghost use Rattle.std.specs.Io.KnownBytes.{ReadConsumes};
ghost use Rattle.fleet_io.specs.Causes.{HasCause};
ghost use Rattle.fleet_io.specs.Bytes.{WritePuts};
ghost use Rattle.fleet_io.specs.Mem.{Held, Supply, Store, count_given, held_at_first, is_to_fail, with_bytes, with_fault, told_if};

use crate::ends::{ReadFailed, Sink, Source, WriteFailed};
use std::alloc::Global;
use std::marker::Model;

// Moves bytes from a place on to the front of the buffer, at most so many.
fn give(bytes: &[u8], at: usize, most: usize, buffer: &mut [u8]) -> usize
    requires place { at ≤ length bytes.now }
    ensures count { result ≡ count_given (drop at bytes.now) most (length buffer.new) }
    ensures within { result ≤ length buffer.new }
    ensures inside { at + result ≤ length bytes.now }
    ensures moved { drop at bytes.now ≡ take result buffer.new ++ drop (at + result) bytes.now }
    ensures end { 1 ≤ most → result ≡ 0 → 0 < length buffer.new → drop (at + result) bytes.now ≡ [] }
{
    let count = (bytes.len() - at).min(most).min(buffer.len());
    buffer[..count].copy_from_slice(&bytes[at..at + count]);
    count
}

/// Bytes in memory, given a few at a time. The calls whose numbers are in a list fail, and no
/// others; calls are counted from 1.
///
/// A contract sees it as its bytes that are left, the most that a call gives, the list, and how
/// many calls and faults there were.
#[derive(Drop)]
pub struct MemSource {
    bytes: Vec<u8>,
    at: usize,
    most: usize,
    failing: Vec<u64>,
    calls: u64,
    faults: u64,
}

impl Model for MemSource {
    ghost Value = { Held };

    ghost view = { λ s. record {
      bytes = drop s.at s.bytes.items;
      most = s.most;
      failing = s.failing.items;
      calls = s.calls;
      faults = s.faults;
    } };

    ghost invariant = { λ s. (s.at ≤ vec_len s.bytes) × (1 ≤ s.most) × (s.calls < 2 ^ 64) × (s.faults < 2 ^ 64) };
}

impl MemSource {
    /// A source of these bytes that gives at most `most` a call, at least 1, and fails at the
    /// calls whose numbers are in `failing`.
    pub fn new(bytes: Vec<u8>, most: usize, failing: Vec<u64>) -> Self
        requires { 1 ≤ most }
        ensures { result ≡ held_at_first bytes.items most failing.items }
    {
        MemSource {
            bytes,
            at: 0,
            most,
            failing,
            calls: 0,
            faults: 0,
        }
    }
}

impl Source for MemSource {
    ghost left = { λ s. Some s.bytes };

    ghost faults = { λ s. s.faults };

    /// As the trait says, and exactly: it fails where the call's number is in the list, and else
    /// gives as many bytes as are left, go into one call and fit the buffer.
    fn read(&mut self, buffer: &mut [u8]) -> Result<usize, ReadFailed>
        ensures bound { ReadsAtMost result buffer.new }
        ensures bytes { ReadConsumes (Some self.old.bytes) (Some self.new.bytes) result buffer.new }
        ensures cause { HasCause self.old.faults self.new.faults result }
        ensures fails { is_err result ≡ is_to_fail self.old }
        ensures count { IfOk result (λ n. n ≡ count_given self.old.bytes self.old.most (length buffer.new)) }
        ensures ok { IfOk result (λ n. self.new ≡ with_bytes self.old (drop n self.old.bytes)) }
        ensures err { OnErr result (self.new ≡ with_fault self.old) }
    {
        self.calls = self.calls.saturating_add(1);
        if self.failing.contains(&self.calls) {
            self.faults = self.faults.saturating_add(1);
            return Err(ReadFailed);
        }
        let count = give(&self.bytes, self.at, self.most, buffer);
        self.at += count;
        Ok(count)
    }
}

/// Bytes in memory, given a few at a time. No call fails: its count of faults is always 0.
///
/// A contract sees it as its bytes that are left and the most that a call gives.
#[derive(Drop)]
pub struct SureSource {
    bytes: Vec<u8>,
    at: usize,
    most: usize,
}

impl Model for SureSource {
    ghost Value = { Supply };

    ghost view = { λ s. record { bytes = drop s.at s.bytes.items; most = s.most } };

    ghost invariant = { λ s. (s.at ≤ vec_len s.bytes) × (1 ≤ s.most) };
}

impl SureSource {
    /// A source of these bytes that gives at most `most` a call, at least 1.
    pub fn new(bytes: Vec<u8>, most: usize) -> Self
        requires { 1 ≤ most }
        ensures { result ≡ record { bytes = bytes.items; most = most } }
    {
        SureSource { bytes, at: 0, most }
    }
}

impl Source for SureSource {
    ghost left = { λ s. Some s.bytes };

    ghost faults = { λ _. 0 };

    /// As the trait says, and exactly: it gives as many bytes as are left, go into one call and
    /// fit the buffer.
    fn read(&mut self, buffer: &mut [u8]) -> Result<usize, ReadFailed>
        ensures bound { ReadsAtMost result buffer.new }
        ensures bytes { ReadConsumes (Some self.old.bytes) (Some self.new.bytes) result buffer.new }
        ensures cause { HasCause 0 0 result }
        ensures sure { IsOk result }
        ensures count { IfOk result (λ n. n ≡ count_given self.old.bytes self.old.most (length buffer.new)) }
        ensures most { self.new.most ≡ self.old.most }
    {
        let count = give(&self.bytes, self.at, self.most, buffer);
        self.at += count;
        Ok(count)
    }
}

/// Keeps what is written, a few bytes a call. The calls whose numbers are in a list fail, and
/// those that find no memory; calls are counted from 1.
///
/// A contract sees it as the bytes written, the most that a call takes, the list, and how many
/// calls and faults there were.
#[derive(Drop)]
pub struct MemSink {
    bytes: Vec<u8>,
    most: usize,
    failing: Vec<u64>,
    calls: u64,
    faults: u64,
}

impl Model for MemSink {
    ghost Value = { Held };

    ghost view = { λ s. record {
      bytes = s.bytes.items;
      most = s.most;
      failing = s.failing.items;
      calls = s.calls;
      faults = s.faults;
    } };

    ghost invariant = { λ s. (1 ≤ s.most) × (s.calls < 2 ^ 64) × (s.faults < 2 ^ 64) };
}

impl MemSink {
    /// An empty sink that takes at most `most` bytes a call, at least 1, and fails at the calls
    /// whose numbers are in `failing`.
    pub fn new(alloc: Global, most: usize, failing: Vec<u64>) -> Self
        requires { 1 ≤ most }
        ensures { result ≡ held_at_first [] most failing.items }
    {
        MemSink {
            bytes: Vec::new(alloc),
            most,
            failing,
            calls: 0,
            faults: 0,
        }
    }

    /// The bytes written so far.
    pub fn written(&self) -> &[u8]
        ensures { result.now ≡ self.now.bytes }
    {
        &self.bytes
    }
}

impl Sink for MemSink {
    ghost written = { λ s. Some s.bytes };

    ghost faults = { λ s. s.faults };

    /// As the trait says, and more: it fails where the call's number is in the list, and else only
    /// where memory is short, which no contract can tell; it takes the most that goes into a call.
    fn write(&mut self, piece: &[u8]) -> Result<usize, WriteFailed>
        ensures bound { IfOk result (λ n. n ≤ length piece.now) }
        ensures some { IfOk result (λ n. 0 < length piece.now → 0 < n) }
        ensures bytes { WritePuts (Some self.old.bytes) (Some self.new.bytes) result piece.now }
        ensures cause { HasCause self.old.faults self.new.faults result }
        ensures fails { IsTrue (is_to_fail self.old) → IsErr result }
        ensures count { IfOk result (λ n. n ≡ min (length piece.now) self.old.most) }
        ensures ok { IfOk result (λ n. self.new ≡ with_bytes self.old (self.old.bytes ++ take n piece.now)) }
        ensures err { OnErr result (self.new ≡ with_fault self.old) }
    {
        self.calls = self.calls.saturating_add(1);
        let count = piece.len().min(self.most);
        if self.failing.contains(&self.calls)
            || self.bytes.extend_from_slice(&piece[..count]).is_err()
        {
            self.faults = self.faults.saturating_add(1);
            return Err(WriteFailed);
        }
        Ok(count)
    }
}

/// Keeps what is written, a few bytes a call. No call fails: its count of faults is always 0.
/// Where memory is short it takes the piece without keeping it, keeps none from then on, and tells
/// nothing of its bytes.
///
/// A contract sees it as the bytes written, where it tells them, and the most that a call takes.
#[derive(Drop)]
pub struct SureSink {
    bytes: Vec<u8>,
    most: usize,
    keeps: bool,
}

impl Model for SureSink {
    ghost Value = { Store };

    ghost view = { λ s. record { told = told_if s.keeps s.bytes.items; most = s.most } };

    ghost invariant = { λ s. 1 ≤ s.most };
}

impl SureSink {
    /// An empty sink that takes at most `most` bytes a call, at least 1.
    pub fn new(alloc: Global, most: usize) -> Self
        requires { 1 ≤ most }
        ensures { result ≡ record { told = Some []; most = most } }
    {
        SureSink {
            bytes: Vec::new(alloc),
            most,
            keeps: true,
        }
    }

    /// The bytes written so far, where the sink tells them; else nothing is said of them.
    pub fn written(&self) -> &[u8]
        ensures { IfSome self.now.told (λ told. result.now ≡ told) }
    {
        &self.bytes
    }
}

impl Sink for SureSink {
    ghost written = { λ s. s.told };

    ghost faults = { λ _. 0 };

    /// As the trait says, and it takes the most that goes into a call.
    fn write(&mut self, piece: &[u8]) -> Result<usize, WriteFailed>
        ensures bound { IfOk result (λ n. n ≤ length piece.now) }
        ensures some { IfOk result (λ n. 0 < length piece.now → 0 < n) }
        ensures bytes { WritePuts self.old.told self.new.told result piece.now }
        ensures cause { HasCause 0 0 result }
        ensures sure { IsOk result }
        ensures count { IfOk result (λ n. n ≡ min (length piece.now) self.old.most) }
        ensures most { self.new.most ≡ self.old.most }
    {
        let count = piece.len().min(self.most);
        if self.keeps && self.bytes.extend_from_slice(&piece[..count]).is_err() {
            self.keeps = false;
        }
        Ok(count)
    }
}
