// A status and a text, and how they are written.
ghost use Rattle.std.specs.Prelude.{◌≡◌, ◌≢◌, ◌⊎◌, Some, Err, IfOk};
ghost use Rattle.fleet_io.specs.Causes.{Rose};
ghost use Rattle.form_base.specs.Forms.{due_view, reply_for};
ghost use Rattle.form_base.specs.Runs.{Tells};
ghost use Rattle.form_base.specs.Stops.{Replies};
ghost use Rattle.form_base.specs.declared.fault.Fault.TheVariants.{TooBig};

use crate::fault::{Fault, Stop};
use crate::report::Report;
use fleet_base::path::NoMemory;
use fleet_io::{Sink, write_text};
use site_lines::number::{push_bytes, push_number};
use std::alloc::Global;

/// A status, and the text that is written with it.
#[derive(Drop)]
pub struct Reply {
    /// The status of the program.
    pub status: u8,
    /// All that is written.
    pub text: Vec<u8>,
}

/// The reply to what a form answers.
pub fn reply_to(alloc: Global, answer: Result<Report, Stop>) -> Result<Reply, NoMemory>
    ensures { IfOk result (λ reply. Replies answer (due_view reply)) }
{
    match answer {
        Ok(Report { ended, text }) => Ok(Reply {
            status: ended.status(),
            text,
        }),
        Err(Stop::Refused(fault)) => refusal(alloc, fault),
        Err(Stop::NoMemory) => Err(NoMemory),
    }
}

/// The reply to an input that has more bytes than the limit of the form.
pub fn too_big(alloc: Global) -> Result<Reply, NoMemory>
    ensures { IfOk result (λ reply. due_view reply ≡ reply_for (Err TooBig)) }
{
    refusal(alloc, Fault::TooBig)
}

// The reply to an input that isn't accepted.
fn refusal(alloc: Global, fault: Fault) -> Result<Reply, NoMemory>
    ensures { IfOk result (λ reply. due_view reply ≡ reply_for (Err fault)) }
{
    let mut text = Vec::new(alloc);
    match fault {
        Fault::Line(at) => {
            push_bytes(&mut text, b"refused line ")?;
            push_number(&mut text, u64::from(at.line))?;
            push_bytes(&mut text, b" ")?;
            push_bytes(&mut text, at.code.text().as_bytes())?;
            push_bytes(&mut text, b"\n")?;
        }
        Fault::TooBig => push_bytes(&mut text, b"refused too big\n")?,
        Fault::UnknownFrom => push_bytes(&mut text, b"refused from\n")?,
        Fault::UnknownTo => push_bytes(&mut text, b"refused to\n")?,
        Fault::Entry(entry) => {
            push_bytes(&mut text, b"refused entry ")?;
            push_number(&mut text, u64::from(entry))?;
            push_bytes(&mut text, b"\n")?;
        }
    }
    Ok(Reply { status: 3, text })
}

/// Writes the text of a reply, and answers its status, or 6 where a write failed. A prefix of the
/// text went out then.
pub fn finish<K: Sink>(sink: &mut K, reply: &Reply) -> u8
    requires { reply.now.status ≢ 6 }
    ensures tells { Tells (due_view reply.now) result (K.written sink.old) (K.written sink.new) }
    ensures fault { result ≡ 6 → Rose (K.faults sink.old) (K.faults sink.new) }
    ensures status { (result ≡ reply.now.status) ⊎ (result ≡ 6) }
{
    match write_text(sink, &reply.text) {
        Ok(()) => reply.status,
        Err(_) => 6,
    }
}
