//! Outcomes to lines.
ghost use Rattle.std.specs.Prelude.{◌≡◌, ◌++◌, IfOk, codes, string_bytes};
ghost use Rattle.hex.specs.Hex.{encode_lower};
ghost use Rattle.ntp_admin.specs.Answers.{malformed_text, reason_text, answer_text, outcome_text};

use ntp_mac::Reply;
use ntp_packet::Malformed;
use ntp_reply::{Answer, Reason};
use ntp_service::{NoMemory, Outcome, Refusal};
use std::alloc::{AllocError, Allocator};

/// The line that is printed for an outcome, with its line feed. Its words are separated by one space,
/// stamps and octets are in lower-case hexadecimal, and places in decimal.
#[tactic(auto, unfolding(crate::specs::Answers::outcome_text))]
pub fn print_answer<A: Allocator + Copy>(alloc: A, outcome: &Outcome) -> Result<String<A>, NoMemory>
    ensures { IfOk result (λ text. string_bytes text ≡ outcome_text outcome.now) }
{
    let line = match outcome {
        Outcome::Datagram(answer) => format!(in alloc; "{}\n", answer_text(alloc, answer)?)?,
        Outcome::Noted => String::from_str(alloc, "noted\n")?,
        Outcome::NotNoted => String::from_str(alloc, "not-noted\n")?,
        Outcome::Done => String::from_str(alloc, "done\n")?,
        Outcome::Refused(refusal) => format!(in alloc; "refused {}\n", refusal.word())?,
    };
    Ok(line)
}

// The answer to a datagram: the time with the receive stamp that was saved, in 16 digits.
fn answer_text<A: Allocator + Copy>(alloc: A, answer: &Answer) -> Result<String<A>, AllocError>
    ensures { IfOk result (λ text. string_bytes text ≡ answer_text answer.now) }
{
    match answer {
        Answer::Time { reply, saved } => {
            let saved = hex::encode(alloc, saved.0.to_be_bytes())?;
            let reply = hex::encode(alloc, reply.octets.octets())?;
            format!(in alloc; "time {saved} {reply}")
        }
        Answer::Rate(reply) => reply_text(alloc, "rate", &reply.octets),
        Answer::Deny(reply) => reply_text(alloc, "deny", reply),
        Answer::Nak(reply) => reply_text(alloc, "nak", reply),
        Answer::Silent(reason) => format!(in alloc; "silent {}", reason_text(alloc, *reason)?),
    }
}

// A reply of another kind.
fn reply_text<A: Allocator + Copy>(
    alloc: A,
    kind: &str,
    reply: &Reply,
) -> Result<String<A>, AllocError>
    ensures { IfOk result (λ text. string_bytes text ≡ kind.now ++ codes " " ++ encode_lower reply.now) }
{
    let reply = hex::encode(alloc, reply.octets())?;
    format!(in alloc; "{kind} {reply}")
}

// Why there is no reply.
fn reason_text<A: Allocator + Copy>(alloc: A, reason: Reason) -> Result<String<A>, AllocError>
    ensures { IfOk result (λ text. string_bytes text ≡ reason_text reason) }
{
    match reason {
        Reason::Unregistered => String::from_str(alloc, "unregistered"),
        Reason::Malformed(fault) => malformed_text(alloc, fault),
        Reason::Version => String::from_str(alloc, "version"),
        Reason::Mode => String::from_str(alloc, "mode"),
        Reason::Bare => String::from_str(alloc, "bare"),
        Reason::Muted => String::from_str(alloc, "muted"),
        Reason::OverBudget => String::from_str(alloc, "over-budget"),
    }
}

// Why octets are no packet.
fn malformed_text<A: Allocator + Copy>(alloc: A, fault: Malformed) -> Result<String<A>, AllocError>
    ensures { IfOk result (λ text. string_bytes text ≡ malformed_text fault) }
{
    match fault {
        Malformed::Short => String::from_str(alloc, "short"),
        Malformed::Long => String::from_str(alloc, "long"),
        Malformed::FieldShort { at } => format!(in alloc; "field-short {at}"),
        Malformed::FieldUnaligned { at } => format!(in alloc; "field-unaligned {at}"),
        Malformed::FieldPastEnd { at } => format!(in alloc; "field-past-end {at}"),
        Malformed::Rest { at } => format!(in alloc; "rest {at}"),
    }
}
