//! What the coordinator answers.

use fleet_base::answers::{
    CancelRefused, Look, ProposeRefused, Proposed, ReplanRefused, ReportRefused, RetryRefused,
    UnknownRobot, WithdrawRefused, Withdrawn,
};
use fleet_base::numbers::Span;

/// What the call of that name answers.
#[derive(Clone, Copy, Debug, PartialEq, Eq)]
pub enum Answer {
    /// What became of the proposed route.
    Propose(Result<Proposed, ProposeRefused>),
    /// The numbers of the events of the pending route, which was merged.
    Retry(Result<Span, RetryRefused>),
    /// The pending route was dropped.
    Cancel(Result<(), CancelRefused>),
    /// What was taken back.
    Withdraw(Result<Withdrawn, WithdrawRefused>),
    /// The numbers of the events of the detour, which was merged.
    Replan(Result<Span, ReplanRefused>),
    /// The event was taken as done.
    Report(Result<(), ReportRefused>),
    /// How the robot stands.
    Look(Result<Look, UnknownRobot>),
}
