//! The lines of answers, without their line feeds.

ghost use Rattle.std.specs.Prelude.{◌≡◌, ◌++◌, [], ◌∷◌, codes, OnOk, OnErr};
ghost use Rattle.fleet_calls.specs.Calls.{answer_of};
ghost use Rattle.fleet_texts.specs.Words.{behind, spaced};
ghost use Rattle.fleet_texts.specs.Answers.{answer_text, span_text, proposed_text, propose_refused_text, retry_refused_text, cancel_refused_text, withdrawn_text, withdraw_refused_text, replan_refused_text, next_text, report_refused_text, event_look_words, pending_look_words, standing_words, look_text};

use crate::pushing::{push_number_word, push_text};
use crate::words::{push_block, push_cell, push_kind};
use fleet_base::answers::{
    CancelRefused, EventLook, Look, PendingLook, ProposeRefused, Proposed, ReplanRefused,
    ReportRefused, RetryRefused, WithdrawRefused, Withdrawn,
};
use fleet_base::numbers::{EventNo, Span};
use fleet_base::path::NoMemory;
use fleet_calls::answer::Answer;
use fleet_names::names::Names;
use site_map::site::Site;

/// Appends the line of an answer, without its line feed. Where no memory is left, the text is given
/// up: it is then empty.
pub fn push_answer(
    text: &mut Vec<u8>,
    names: &Names,
    site: &Site,
    answer: &Answer,
) -> Result<(), NoMemory>
    ensures ok { OnOk result (text.new.items ≡ text.old.items ++ answer_text names.now site.now (answer_of answer.now)) }
    ensures err { OnErr result (text.new.items ≡ []) }
{
    match answer {
        Answer::Propose(Ok(proposed)) => push_proposed(text, names, site, proposed),
        Answer::Propose(Err(refused)) => push_propose_refused(text, names, refused),
        Answer::Retry(Ok(span)) => push_span(text, span),
        Answer::Retry(Err(refused)) => push_retry_refused(text, names, site, refused),
        Answer::Cancel(Ok(())) => push_canceled(text),
        Answer::Cancel(Err(refused)) => push_cancel_refused(text, refused),
        Answer::Withdraw(Ok(withdrawn)) => push_withdrawn(text, names, withdrawn),
        Answer::Withdraw(Err(refused)) => push_withdraw_refused(text, refused),
        Answer::Replan(Ok(span)) => push_span(text, span),
        Answer::Replan(Err(refused)) => push_replan_refused(text, refused),
        Answer::Report(Ok(())) => push_reported(text),
        Answer::Report(Err(refused)) => push_report_refused(text, refused),
        Answer::Look(Ok(look)) => push_look(text, names, site, look),
        Answer::Look(Err(_)) => push_text(text, b"refused robot"),
    }
}

// Appends that a route was merged, with the numbers of its first and its last event.
fn push_span(text: &mut Vec<u8>, span: &Span) -> Result<(), NoMemory>
    ensures ok { OnOk result (text.new.items ≡ text.old.items ++ span_text span.now) }
    ensures err { OnErr result (text.new.items ≡ []) }
{
    push_text(text, b"merged")?;
    push_number_word(text, span.first.0)?;
    push_number_word(text, span.last.0)
}

// Appends what became of a proposed route.
fn push_proposed(
    text: &mut Vec<u8>,
    names: &Names,
    site: &Site,
    proposed: &Proposed,
) -> Result<(), NoMemory>
    ensures ok { OnOk result (text.new.items ≡ text.old.items ++ proposed_text names.now site.now proposed.now) }
    ensures err { OnErr result (text.new.items ≡ []) }
{
    match proposed {
        Proposed::Merged(span) => push_span(text, span),
        Proposed::Deferred(block) => {
            push_text(text, b"deferred")?;
            push_block(text, names, site, block)
        }
    }
}

// Appends why a proposal is refused.
fn push_propose_refused(
    text: &mut Vec<u8>,
    names: &Names,
    refused: &ProposeRefused,
) -> Result<(), NoMemory>
    ensures ok { OnOk result (text.new.items ≡ text.old.items ++ propose_refused_text names.now refused.now) }
    ensures err { OnErr result (text.new.items ≡ []) }
{
    match refused {
        ProposeRefused::UnknownRobot => push_text(text, b"refused robot"),
        ProposeRefused::HasPending => push_text(text, b"refused pending"),
        ProposeRefused::Short => push_text(text, b"refused short"),
        ProposeRefused::TooLong => push_text(text, b"refused long"),
        ProposeRefused::UnknownCell { at } => {
            push_text(text, b"refused cell")?;
            push_number_word(text, u64::from(*at))
        }
        ProposeRefused::NoLink { at } => {
            push_text(text, b"refused no link")?;
            push_number_word(text, u64::from(*at))
        }
        ProposeRefused::BadStart { end } => {
            push_text(text, b"refused start")?;
            push_cell(text, names, *end)
        }
        ProposeRefused::Full => push_text(text, b"refused full"),
        ProposeRefused::NoMemory => push_text(text, b"refused memory"),
    }
}

// Appends why a retry is refused.
fn push_retry_refused(
    text: &mut Vec<u8>,
    names: &Names,
    site: &Site,
    refused: &RetryRefused,
) -> Result<(), NoMemory>
    ensures ok { OnOk result (text.new.items ≡ text.old.items ++ retry_refused_text names.now site.now refused.now) }
    ensures err { OnErr result (text.new.items ≡ []) }
{
    match refused {
        RetryRefused::UnknownRobot => push_text(text, b"refused robot"),
        RetryRefused::NoPending => push_text(text, b"refused no pending"),
        RetryRefused::StillDeferred(block) => {
            push_text(text, b"still")?;
            push_block(text, names, site, block)
        }
        RetryRefused::Full => push_text(text, b"refused full"),
        RetryRefused::NoMemory => push_text(text, b"refused memory"),
    }
}

// Appends that a pending route was dropped.
fn push_canceled(text: &mut Vec<u8>) -> Result<(), NoMemory>
    ensures ok { OnOk result (text.new.items ≡ text.old.items ++ codes "canceled") }
    ensures err { OnErr result (text.new.items ≡ []) }
{
    push_text(text, b"canceled")
}

// Appends why a cancel is refused.
fn push_cancel_refused(text: &mut Vec<u8>, refused: &CancelRefused) -> Result<(), NoMemory>
    ensures ok { OnOk result (text.new.items ≡ text.old.items ++ cancel_refused_text refused.now) }
    ensures err { OnErr result (text.new.items ≡ []) }
{
    match refused {
        CancelRefused::UnknownRobot => push_text(text, b"refused robot"),
        CancelRefused::NoPending => push_text(text, b"refused no pending"),
    }
}

// Appends how many events a withdrawal removed, and the robot's new end.
fn push_withdrawn(text: &mut Vec<u8>, names: &Names, withdrawn: &Withdrawn) -> Result<(), NoMemory>
    ensures ok { OnOk result (text.new.items ≡ text.old.items ++ withdrawn_text names.now withdrawn.now) }
    ensures err { OnErr result (text.new.items ≡ []) }
{
    push_text(text, b"withdrawn")?;
    push_number_word(text, u64::from(withdrawn.removed))?;
    push_cell(text, names, withdrawn.end)
}

// Appends why a withdrawal is refused.
fn push_withdraw_refused(text: &mut Vec<u8>, refused: &WithdrawRefused) -> Result<(), NoMemory>
    ensures ok { OnOk result (text.new.items ≡ text.old.items ++ withdraw_refused_text refused.now) }
    ensures err { OnErr result (text.new.items ≡ []) }
{
    match refused {
        WithdrawRefused::UnknownRobot => push_text(text, b"refused robot"),
        WithdrawRefused::Nothing => push_text(text, b"refused nothing"),
    }
}

// Appends why a replan is refused.
fn push_replan_refused(text: &mut Vec<u8>, refused: &ReplanRefused) -> Result<(), NoMemory>
    ensures ok { OnOk result (text.new.items ≡ text.old.items ++ replan_refused_text refused.now) }
    ensures err { OnErr result (text.new.items ≡ []) }
{
    match refused {
        ReplanRefused::UnknownRobot => push_text(text, b"refused robot"),
        ReplanRefused::NoPending => push_text(text, b"refused no pending"),
        ReplanRefused::AtGoal => push_text(text, b"refused at goal"),
        ReplanRefused::NoDetour => push_text(text, b"refused no detour"),
        ReplanRefused::Full => push_text(text, b"refused full"),
        ReplanRefused::NoMemory => push_text(text, b"refused memory"),
    }
}

// Appends that an event was reported.
fn push_reported(text: &mut Vec<u8>) -> Result<(), NoMemory>
    ensures ok { OnOk result (text.new.items ≡ text.old.items ++ codes "reported") }
    ensures err { OnErr result (text.new.items ≡ []) }
{
    push_text(text, b"reported")
}

// Appends why a report is refused.
fn push_report_refused(text: &mut Vec<u8>, refused: &ReportRefused) -> Result<(), NoMemory>
    ensures ok { OnOk result (text.new.items ≡ text.old.items ++ report_refused_text refused.now) }
    ensures err { OnErr result (text.new.items ≡ []) }
{
    match refused {
        ReportRefused::UnknownRobot => push_text(text, b"refused robot"),
        ReportRefused::NotNext { next } => {
            push_text(text, b"refused next")?;
            push_next(text, *next)
        }
        ReportRefused::Early { on } => {
            push_text(text, b"refused early")?;
            push_number_word(text, on.0)
        }
    }
}

// Appends a space and the number of a robot's next event, or `none`.
fn push_next(text: &mut Vec<u8>, next: Option<EventNo>) -> Result<(), NoMemory>
    ensures ok { OnOk result (text.new.items ≡ text.old.items ++ behind (next_text next ∷ [])) }
    ensures err { OnErr result (text.new.items ≡ []) }
{
    match next {
        None => push_text(text, b" none"),
        Some(event) => push_number_word(text, event.0),
    }
}

// Appends what a look shows.
#[tactic(auto, unfolding(crate::specs::Answers::look_text))]
fn push_look(text: &mut Vec<u8>, names: &Names, site: &Site, look: &Look) -> Result<(), NoMemory>
    ensures ok { OnOk result (text.new.items ≡ text.old.items ++ look_text names.now site.now look.now) }
    ensures err { OnErr result (text.new.items ≡ []) }
{
    push_standing(text, names, look)?;
    push_text(text, b" next")?;
    push_event_look(text, names, site, &look.event)?;
    push_text(text, b" pending")?;
    push_pending_look(text, names, site, &look.pending)
}

// Appends where a look shows the robot, and how many events it has left.
fn push_standing(text: &mut Vec<u8>, names: &Names, look: &Look) -> Result<(), NoMemory>
    ensures ok { OnOk result (text.new.items ≡ text.old.items ++ spaced (standing_words names.now look.now)) }
    ensures err { OnErr result (text.new.items ≡ []) }
{
    push_text(text, b"look at")?;
    push_cell(text, names, look.at)?;
    push_text(text, b" end")?;
    push_cell(text, names, look.end)?;
    push_text(text, b" left")?;
    push_number_word(text, u64::from(look.left))
}

// Appends what a look shows of the robot's next event, with a space before each word.
fn push_event_look(
    text: &mut Vec<u8>,
    names: &Names,
    site: &Site,
    event: &EventLook,
) -> Result<(), NoMemory>
    ensures ok { OnOk result (text.new.items ≡ text.old.items ++ behind (event_look_words names.now site.now event.now)) }
    ensures err { OnErr result (text.new.items ≡ []) }
{
    match event {
        EventLook::Nothing => push_text(text, b" none"),
        EventLook::Ready { event, kind } => {
            push_text(text, b" ready")?;
            push_number_word(text, event.0)?;
            push_kind(text, names, site, *kind)
        }
        EventLook::Waits { event, on } => {
            push_text(text, b" waits")?;
            push_number_word(text, event.0)?;
            push_text(text, b" on")?;
            push_number_word(text, on.0)
        }
    }
}

// Appends what a look shows of the robot's pending route, with a space before each word.
fn push_pending_look(
    text: &mut Vec<u8>,
    names: &Names,
    site: &Site,
    pending: &PendingLook,
) -> Result<(), NoMemory>
    ensures ok { OnOk result (text.new.items ≡ text.old.items ++ behind (pending_look_words names.now site.now pending.now)) }
    ensures err { OnErr result (text.new.items ≡ []) }
{
    match pending {
        PendingLook::Nothing => push_text(text, b" none"),
        PendingLook::Free => push_text(text, b" free"),
        PendingLook::Blocked(block) => {
            push_text(text, b" blocked")?;
            push_block(text, names, site, block)
        }
    }
}
