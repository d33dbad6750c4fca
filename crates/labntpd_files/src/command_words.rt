//! The words of a line of commands: which of them has a fault, and what faults and refusals mean.
ghost use Rattle.std.specs.Prelude.{◌≡◌};
ghost use Rattle.labntpd_files.specs.CommandWords.{faulty_place};

use ntp_service::{LineFault, Refusal};

/// At which word, counted from 0, a line with this first word has a fault, unless the number of words is the fault, or want of memory.
pub fn faulty_place(first: &str, fault: LineFault) -> Option<u64>
    ensures { result ≡ faulty_place first.now fault }
{
    match fault {
        LineFault::Word => Some(0),
        LineFault::Address => Some(1),
        LineFault::Number => Some(2),
        LineFault::Algorithm => Some(3),
        LineFault::KeyText => Some(4),
        LineFault::Budget => Some(if first == "budget" { 2 } else { 5 }),
        _ => None,
    }
}

/// The word at `place` of a line, counted from 0, behind the column of its first octet, counted from 1. One space stands between two words.
pub fn word_at(line: &str, place: u64) -> Option<(u64, &str)> {
    let word = line.split(' ').nth(place as usize)?;
    let before = line.split(' ').take(place as usize);
    let octets = before.fold(0_u64, |sum, word| sum.saturating_add(word.len() as u64));
    Some((octets.saturating_add(place).saturating_add(1), word))
}

/// What the fault of a line means, in a sentence.
pub fn fault_meaning(fault: LineFault) -> &'static str {
    match fault {
        LineFault::Word => "enrol, revoke, budget, rollover or retire is wanted as the first word",
        LineFault::Count => {
            "another number of words is wanted, with one space between each two and none at the end"
        }
        LineFault::Address => "an IPv4 address, as 192.0.2.1, is wanted",
        LineFault::Number => "a key number from 1 to 65535 is wanted",
        LineFault::Algorithm => "md5 or sha1 is wanted",
        LineFault::KeyText => "2 to 64 hexadecimal digits, an even number, are wanted",
        LineFault::Budget => "a budget from 1 to 65535 is wanted",
        LineFault::NoMemory => "there is no memory for it",
        LineFault::Moment => "an era, a colon and a stamp are wanted",
        LineFault::Stamp => "16 hexadecimal digits are wanted",
        LineFault::Reference => "the 46 hexadecimal digits of a reference state are wanted",
        LineFault::Hex => "hexadecimal digits, an even number, or - are wanted",
        LineFault::LineLong => "a line of at most 4096 octets is wanted",
        LineFault::NotUtf8 => "UTF-8 is wanted",
    }
}

/// What a refusal means, in a sentence.
pub fn refusal_meaning(refusal: Refusal) -> &'static str {
    match refusal {
        Refusal::AlreadyEnrolled => "the address is a customer already",
        Refusal::KeyTaken => "another customer has the key number",
        Refusal::NoMemory => "there is no memory for it",
        Refusal::NotEnrolled => "the address is no customer",
        Refusal::SameNumber => "the address has this key number already",
        Refusal::RoomFull => "the address has two keys already",
        Refusal::OnlyKey => "this is the only key of the address",
        Refusal::NotHeld => "the address has no key of this number",
    }
}
