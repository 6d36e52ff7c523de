// The two ends that bytes move between.
ghost use Rattle.std.specs.Prelude.{ℕ, ◌≤◌, ◌<◌, List, length, IfOk};
ghost use Rattle.std.specs.declared.option.Option.{Option};
ghost use Rattle.std.specs.Io.{ReadsAtMost};
ghost use Rattle.std.specs.Io.KnownBytes.{ReadConsumes};
ghost use Rattle.fleet_io.specs.Causes.{HasCause};
ghost use Rattle.fleet_io.specs.Bytes.{WritePuts};

use thiserror::Error;

/// A read failed: the count of faults rose, and nothing was taken.
#[derive(Clone, Copy, Debug, PartialEq, Eq, Error)]
#[error("a read failed")]
pub struct ReadFailed;

/// A write failed: the count of faults rose, and nothing was written.
#[derive(Clone, Copy, Debug, PartialEq, Eq, Error)]
#[error("a write failed")]
pub struct WriteFailed;

/// Gives bytes. Generic callers may rely on what is said here of each source, and on no more.
pub trait Source {
    /// The bytes that are left, where the source tells them.
    ghost left: { Self → Option (List ℕ) };

    /// How often a read failed, up to 2^64 - 1. It never falls.
    ghost faults: { Self → ℕ };

    /// Moves the first bytes of those left to the front of the buffer, and answers how many. Into
    /// a buffer that isn't empty it moves none exactly where none is left, which is the end of the
    /// input. What it does to the buffer behind them is left open.
    ///
    /// It answers `ReadFailed` only where the count of faults rose, and then it takes nothing.
    fn read(&mut self, buffer: &mut [u8]) -> Result<usize, ReadFailed>
        ensures bound { ReadsAtMost result buffer.new }
        ensures bytes { ReadConsumes (left self.old) (left self.new) result buffer.new }
        ensures cause { HasCause (faults self.old) (faults self.new) result };
}

/// Takes bytes. Generic callers may rely on what is said here of each sink, and on no more.
pub trait Sink {
    /// The bytes written so far, where the sink tells them. It may stop telling them, and does not
    /// begin to.
    ghost written: { Self → Option (List ℕ) };

    /// How often a write failed, up to 2^64 - 1. It never falls.
    ghost faults: { Self → ℕ };

    /// Puts the first bytes of the piece behind those written, and answers how many: at least one
    /// of a piece that isn't empty.
    ///
    /// It answers `WriteFailed` only where the count of faults rose, and then it takes nothing.
    fn write(&mut self, piece: &[u8]) -> Result<usize, WriteFailed>
        ensures bound { IfOk result (λ n. n ≤ length piece.now) }
        ensures some { IfOk result (λ n. 0 < length piece.now → 0 < n) }
        ensures bytes { WritePuts (written self.old) (written self.new) result piece.now }
        ensures cause { HasCause (faults self.old) (faults self.new) result };
}
