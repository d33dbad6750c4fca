//! What answers and lines are counted as.
ghost use Rattle.std.specs.Prelude.{◌≡◌};
ghost use Rattle.ntp_reports.specs.Kinds.{answer_kind, silence_kind, malformed_kind, line_kind, refusal_kind};

use crate::kind::Kind;
use ntp_packet::Malformed;
use ntp_reply::{Answer, Reason};
use ntp_service::{LineOutcome, Refusal};

// What an answer is counted as.
pub(crate) fn answer_kind(answer: &Answer) -> Kind
    ensures { result ≡ answer_kind answer.now }
{
    match answer {
        Answer::Time { reply, .. } if reply.is_interleaved => Kind::Interleaved,
        Answer::Time { .. } => Kind::Basic,
        Answer::Rate(_) => Kind::Rate,
        Answer::Deny(_) => Kind::Deny,
        Answer::Nak(_) => Kind::Nak,
        Answer::Silent(reason) => silence_kind(*reason),
    }
}

// What a datagram without a reply is counted as.
fn silence_kind(reason: Reason) -> Kind
    ensures { result ≡ silence_kind reason }
{
    match reason {
        Reason::Unregistered => Kind::Unregistered,
        Reason::Malformed(fault) => malformed_kind(fault),
        Reason::Version => Kind::Version,
        Reason::Mode => Kind::Mode,
        Reason::Bare => Kind::Bare,
        Reason::Muted => Kind::Muted,
        Reason::OverBudget => Kind::OverBudget,
    }
}

// What octets that are no packet are counted as.
fn malformed_kind(fault: Malformed) -> Kind
    ensures { result ≡ malformed_kind fault }
{
    match fault {
        Malformed::Short => Kind::Short,
        Malformed::Long => Kind::Long,
        Malformed::FieldShort { .. } => Kind::FieldShort,
        Malformed::FieldUnaligned { .. } => Kind::FieldUnaligned,
        Malformed::FieldPastEnd { .. } => Kind::FieldPastEnd,
        Malformed::Rest { .. } => Kind::Rest,
    }
}

// What a line of commands is counted as.
pub(crate) fn line_kind(outcome: LineOutcome) -> Kind
    ensures { result ≡ line_kind outcome }
{
    match outcome {
        LineOutcome::Done => Kind::Done,
        LineOutcome::Refused(refusal) => refusal_kind(refusal),
        LineOutcome::Faulty(_) => Kind::Faulty,
    }
}

// What a refused command is counted as.
fn refusal_kind(refusal: Refusal) -> Kind
    ensures { result ≡ refusal_kind refusal }
{
    match refusal {
        Refusal::AlreadyEnrolled => Kind::AlreadyEnrolled,
        Refusal::KeyTaken => Kind::KeyTaken,
        Refusal::NoMemory => Kind::NoMemory,
        Refusal::NotEnrolled => Kind::NotEnrolled,
        Refusal::SameNumber => Kind::SameNumber,
        Refusal::RoomFull => Kind::RoomFull,
        Refusal::OnlyKey => Kind::OnlyKey,
        Refusal::NotHeld => Kind::NotHeld,
    }
}
