// A whole source in, and a whole text out.
ghost use Rattle.std.specs.Prelude.{ℕ, ◌^◌, ◌+◌, ◌≤◌, ◌<◌, vec_len, IfOk, OnOk, OnErr, IsErrOf};
ghost use Rattle.std.specs.Io.KnownBytes.{Consumes, IsAtEnd};
ghost use Rattle.fleet_io.specs.Causes.{Rose};
ghost use Rattle.fleet_io.specs.Bytes.{TakesAtMost, TakesJust, Puts, PutsPrefix};

use crate::ends::{ReadFailed, Sink, Source};
use std::alloc::{AllocError, Global};
use thiserror::Error;

/// Why a source was not read to its end.
#[derive(Clone, Copy, Debug, PartialEq, Eq, Error)]
pub enum Taken {
    /// A read failed in this call.
    #[error("a read failed")]
    ReadFault,
    /// More bytes came than the limit.
    #[error("more bytes came than the limit")]
    TooBig,
    /// Memory was short.
    #[error("out of memory")]
    NoMemory,
}

impl From<ReadFailed> for Taken {
    ghost use Rattle.std.specs.Prelude.{◌≡◌};
    ghost use Rattle.fleet_io.specs.declared.moves.Taken.TheVariants.{ReadFault};

    ghost from_gives = { λ _ e. e ≡ ReadFault };

    fn from(_error: ReadFailed) -> Taken {
        Taken::ReadFault
    }
}

impl From<AllocError> for Taken {
    ghost use Rattle.std.specs.Prelude.{◌≡◌};
    ghost use Rattle.fleet_io.specs.declared.moves.Taken.TheVariants.{NoMemory};

    ghost from_gives = { λ _ e. e ≡ NoMemory };

    fn from(_error: AllocError) -> Taken {
        Taken::NoMemory
    }
}

/// A write failed before the whole text went out.
#[derive(Clone, Copy, Debug, PartialEq, Eq, Error)]
#[error("a write failed")]
pub struct WriteFault;

// The room that each read is offered, where the limit leaves so much.
const PIECE: usize = 65_536;

/// All that the source has left, read to its end. The limit is below 2^32.
///
/// `Ok` is all of the bytes that were left, at most `limit`, and none is left. `TooBig` comes where
/// more than `limit` bytes came, and then `limit + 1` were taken; `ReadFault` only where the
/// source's count of faults rose; `NoMemory` where memory is short, which no contract can tell.
/// After each error some first bytes were taken, at most `limit + 1`, and they are gone.
///
/// It holds one buffer, which grows with what came: at most about twice the input.
pub fn read_all<S: Source>(alloc: Global, source: &mut S, limit: u64) -> Result<Vec<u8>, Taken>
    requires { limit < 2 ^ 32 }
    ensures bytes { IfOk result (λ v. Consumes (S.left source.old) (S.left source.new) v.items) }
    ensures end { OnOk result (IsAtEnd (S.left source.new)) }
    ensures small { IfOk result (λ v. vec_len v ≤ limit) }
    ensures big { IsErrOf result Taken.TooBig → TakesJust (S.left source.old) (S.left source.new) (limit + 1) }
    ensures part { OnErr result (TakesAtMost (S.left source.old) (S.left source.new) (limit + 1)) }
    ensures fault { IsErrOf result Taken.ReadFault → Rose (S.faults source.old) (S.faults source.new) }
    ensures later { S.faults source.old ≤ S.faults source.new }
{
    let most = limit as usize + 1;
    let mut bytes = Vec::new(alloc);
    let mut filled = 0;
    while filled < most {
        let room = (most - filled).min(PIECE);
        bytes.resize(filled + room, 0)?;
        let count = source.read(&mut bytes.as_mut_slice()[filled..])?;
        if count == 0 {
            bytes.truncate(filled);
            return Ok(bytes);
        }
        filled += count;
    }
    Err(Taken::TooBig)
}

/// Writes the whole text.
///
/// On `WriteFault` some first bytes of the text went out, and a write failed in this call: the
/// sink's count of faults rose.
pub fn write_text<K: Sink>(sink: &mut K, text: &[u8]) -> Result<(), WriteFault>
    ensures whole { OnOk result (Puts (K.written sink.old) (K.written sink.new) text.now) }
    ensures prefix { OnErr result (PutsPrefix (K.written sink.old) (K.written sink.new) text.now) }
    ensures fault { OnErr result (Rose (K.faults sink.old) (K.faults sink.new)) }
    ensures later { K.faults sink.old ≤ K.faults sink.new }
{
    let mut sent = 0;
    while sent < text.len() {
        let Ok(count) = sink.write(&text[sent..]) else {
            return Err(WriteFault);
        };
        sent += count;
    }
    Ok(())
}
