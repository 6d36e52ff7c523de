// Whether a journal has the first line that it would be printed with.
ghost use Rattle.std.specs.Prelude.{◌≡◌, ◌==◌, ◌+◌, ◌-◌, ◌^◌, ◌<◌, length, if◌then◌else◌, Ok, Err};
ghost use Rattle.site_lines.specs.declared.fault.Code.TheVariants.{T2};

use fleet_base::marks::Mark;
use site_lines::fault::{At, Code};

// Whether a journal with these marks, which stands behind so many lines, is one segment: a journal
// of more isn't printed as one of version 1. Where it is more, its first line is named.
pub(crate) fn check_header(marks: &[Mark], lines: u32) -> Result<(), At>
    requires { lines < 2 ^ 32 - 1 }
    ensures { result ≡ (if length marks.now == 1 then Ok tt else Err (record { line = lines + 1; code = T2 })) }
{
    if marks.len() == 1 {
        return Ok(());
    }
    Err(At {
        line: lines + 1,
        code: Code::T2,
    })
}
