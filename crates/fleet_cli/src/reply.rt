// The text that is due, with its status.
ghost use Rattle.std.specs.Prelude.{◌≡◌, ◌≢◌, None, IfOk, IsErrOf};
ghost use Rattle.fleet_io.specs.Causes.{Rose};
ghost use Rattle.form_base.specs.Forms.{due_view};
ghost use Rattle.form_base.specs.Runs.{IsDue, IsReady};
ghost use Rattle.fleet_cli.specs.Forms.{form_asked, form_view, spec_of, usage_text};
ghost use Rattle.fleet_cli.specs.Runs.{HasStatus, IsReadyFor};
ghost use Rattle.fleet_cli.specs.declared.reply.NoReply.TheVariants.{NoMemory as OutOfMemory};

use crate::form::{Form, form_from};
use crate::output::output;
use fleet_base::path::NoMemory;
use fleet_io::{Source, Taken};
use form_base::{Reply, read_input, reply_to, too_big};
use site_lines::number::push_bytes;
use std::alloc::Global;

// Why nothing is written.
#[derive(Clone, Copy, Debug, PartialEq, Eq)]
pub(crate) enum NoReply {
    // A read failed.
    ReadFault,
    // No memory was left.
    NoMemory,
}

impl From<NoMemory> for NoReply {
    ghost from_gives = { λ _ none. none ≡ OutOfMemory };

    fn from(_error: NoMemory) -> NoReply {
        NoReply::NoMemory
    }
}

// The reply to the words and to what the source has left.
pub(crate) fn ready<S: Source>(
    alloc: Global,
    words: &[&str],
    source: &mut S,
) -> Result<Reply, NoReply>
    ensures due { IfOk result (λ reply.
        IsReadyFor (form_asked words.now) (S.left source.old) (S.left source.new) (due_view reply)) }
    ensures status { IfOk result (λ reply. HasStatus (form_asked words.now) reply.status) }
    ensures unread { IsErrOf result NoReply.ReadFault → form_asked words.now ≢ None }
    ensures fault { IsErrOf result NoReply.ReadFault → Rose (S.faults source.old) (S.faults source.new) }
{
    match form_from(words) {
        Some(form) => form_reply(alloc, form, source),
        None => Ok(usage(alloc)?),
    }
}

// The reply to a form.
fn form_reply<S: Source>(alloc: Global, form: Form<'_>, source: &mut S) -> Result<Reply, NoReply>
    ensures due { IfOk result (λ reply.
        IsReady (spec_of (form_view form.entry)).limit (IsDue (spec_of (form_view form.entry)))
        (S.left source.old) (S.left source.new) (due_view reply)) }
    ensures fault { IsErrOf result NoReply.ReadFault → Rose (S.faults source.old) (S.faults source.new) }
{
    match read_input(alloc, source, form.limit()) {
        Ok(input) => Ok(reply_to(alloc, output(alloc, form, &input))?),
        Err(Taken::TooBig) => Ok(too_big(alloc)?),
        Err(Taken::ReadFault) => Err(NoReply::ReadFault),
        Err(Taken::NoMemory) => Err(NoReply::NoMemory),
    }
}

// The reply to words that are no form.
fn usage(alloc: Global) -> Result<Reply, NoMemory>
    ensures { IfOk result (λ reply. due_view reply ≡ record { status = 2; text = usage_text }) }
{
    let mut text = Vec::new(alloc);
    push_bytes(
        &mut text,
        b"usage: fleet check | route FROM TO | script | replay | assign\n",
    )?;
    Ok(Reply { status: 2, text })
}
