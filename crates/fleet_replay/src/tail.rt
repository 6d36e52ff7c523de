// What stands behind a journal.
ghost use Rattle.std.specs.Prelude.{◌≡◌, ◌+◌, ◌-◌, ◌^◌, ◌<◌, ◌≤◌, length, if◌then◌else◌, Ok, Err};
ghost use Rattle.site_lines.specs.declared.fault.Code.TheVariants.{T1};
ghost use Rattle.fleet_replay.specs.Tails.{differing_line, is_tail};

use site_lines::fault::{At, Code};

// Whether this may stand behind a journal whose state has that text, and behind so many lines: it is
// empty, or it is the state's text. Where it isn't, its first line that differs is named.
pub(crate) fn check_tail(tail: &[u8], state: &[u8], lines: u32) -> Result<(), At>
    requires { lines + length tail.now < 2 ^ 32 - 1 }
    ensures { result ≡ (if is_tail state.now tail.now then Ok tt else Err (record { line = lines + differing_line tail.now state.now; code = T1 })) }
{
    if tail.is_empty() || tail == state {
        return Ok(());
    }
    Err(At {
        line: lines + differing_line(tail, state),
        code: Code::T1,
    })
}

// The first line, from 1, in which a text differs from another one.
fn differing_line(text: &[u8], other: &[u8]) -> u32
    requires { length text.now < 2 ^ 32 - 1 }
    ensures is { result ≡ differing_line text.now other.now }
    ensures small { result ≤ length text.now + 1 }
{
    let mut line = 1u32;
    for place in 0..text.len().min(other.len()) {
        if text[place] != other[place] {
            return line;
        }
        if text[place] == b'\n' {
            line += 1;
        }
    }
    line
}
