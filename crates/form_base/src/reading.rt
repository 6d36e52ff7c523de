// Reading an input within the limit of a form.
ghost use Rattle.std.specs.Prelude.{ℕ, List, true, false, ◌^◌, ◌<◌, IfOk, IfSome, IsErrOf};
ghost use Rattle.fleet_io.specs.Causes.{Rose};
ghost use Rattle.form_base.specs.Runs.{IsTaken};

use fleet_io::{Source, Taken, read_all};
use std::alloc::Global;

/// What a form with this limit sees of a source: all that it has left, or nothing where the form
/// reads nothing. The limit is below 2^32.
///
/// `TooBig` comes where more is left than the limit; `ReadFault` only where the source's count of
/// faults rose; `NoMemory` where memory is short, which no contract can tell.
pub fn read_input<S: Source>(
    alloc: Global,
    source: &mut S,
    limit: Option<u64>,
) -> Result<Vec<u8>, Taken>
    requires { IfSome limit (λ most. most < 2 ^ 32) }
    ensures seen { IfOk result (λ bytes. IsTaken false limit (S.left source.old) (S.left source.new) bytes.items) }
    ensures big { IsErrOf result Taken.TooBig → (seen : List ℕ) × IsTaken true limit (S.left source.old) (S.left source.new) seen }
    ensures fault { IsErrOf result Taken.ReadFault → Rose (S.faults source.old) (S.faults source.new) }
{
    match limit {
        Some(most) => read_all(alloc, source, most),
        None => Ok(Vec::new(alloc)),
    }
}
