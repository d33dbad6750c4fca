//! How often answers and lines of commands of each kind were counted, with the labels of the statistics.
ghost use Rattle.std.specs.Prelude.{◌≡◌, map};
ghost use Rattle.ntp_reports.specs.Statistics.{answers, commands};

use crate::counts::Counts;
use crate::kind::Kind;

/// A sample with a label: what stands before the word in the label, the word, and a number.
pub(crate) type Labelled<'a> = (&'static str, &'a str, u64);

/// The label before the word of an answer.
const ANSWER: &str = "answer";

/// The labels before the word of a time reply's mode.
const MODE: &str = r#"answer="time",mode"#;

/// The labels before the word of the reason of no reply.
const SILENT: &str = r#"answer="silent",reason"#;

/// The labels before the word of the reason of a refusal.
const REFUSED: &str = r#"answer="refused",reason"#;

/// Returns how often each answer was given to datagrams.
#[tactic(auto, unfolding(crate::specs::Statistics::answers))]
pub(crate) fn answers(counts: &Counts) -> [Labelled<'static>; 17]
    ensures { map (λ s. (s.0.now, s.1.now, s.2)) result ≡ answers counts.now }
{
    [
        (MODE, "basic", counts.count(Kind::Basic)),
        (MODE, "interleaved", counts.count(Kind::Interleaved)),
        (ANSWER, "rate", counts.count(Kind::Rate)),
        (ANSWER, "deny", counts.count(Kind::Deny)),
        (ANSWER, "nak", counts.count(Kind::Nak)),
        (SILENT, "unregistered", counts.count(Kind::Unregistered)),
        (SILENT, "short", counts.count(Kind::Short)),
        (SILENT, "long", counts.count(Kind::Long)),
        (SILENT, "field-short", counts.count(Kind::FieldShort)),
        (
            SILENT,
            "field-unaligned",
            counts.count(Kind::FieldUnaligned),
        ),
        (SILENT, "field-past-end", counts.count(Kind::FieldPastEnd)),
        (SILENT, "rest", counts.count(Kind::Rest)),
        (SILENT, "version", counts.count(Kind::Version)),
        (SILENT, "mode", counts.count(Kind::Mode)),
        (SILENT, "bare", counts.count(Kind::Bare)),
        (SILENT, "muted", counts.count(Kind::Muted)),
        (SILENT, "over-budget", counts.count(Kind::OverBudget)),
    ]
}

/// Returns how often each outcome came of lines of commands.
#[tactic(auto, unfolding(crate::specs::Statistics::commands))]
pub(crate) fn commands(counts: &Counts) -> [Labelled<'static>; 10]
    ensures { map (λ s. (s.0.now, s.1.now, s.2)) result ≡ commands counts.now }
{
    [
        (ANSWER, "done", counts.count(Kind::Done)),
        (
            REFUSED,
            "already-enrolled",
            counts.count(Kind::AlreadyEnrolled),
        ),
        (REFUSED, "key-taken", counts.count(Kind::KeyTaken)),
        (REFUSED, "no-memory", counts.count(Kind::NoMemory)),
        (REFUSED, "not-enrolled", counts.count(Kind::NotEnrolled)),
        (REFUSED, "same-number", counts.count(Kind::SameNumber)),
        (REFUSED, "room-full", counts.count(Kind::RoomFull)),
        (REFUSED, "only-key", counts.count(Kind::OnlyKey)),
        (REFUSED, "not-held", counts.count(Kind::NotHeld)),
        (ANSWER, "faulty", counts.count(Kind::Faulty)),
    ]
}
