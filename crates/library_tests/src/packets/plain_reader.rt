//! A plain reader of datagrams. It is slow, and takes the definitions by their words: which places
//! whole fields lead to, and what stands at the last of them.
use arrayvec::ArrayVec;
use ntp_packet::{Fields, Malformed, Tail, read_request};

/// How many octets the longest generated datagram has.
const MOST_OCTETS: usize = 130;

/// The place behind the longest.
const MOST_PLACE: u16 = 130;

/// The lengths that are written into generated fields.
pub(crate) const LENGTHS: [u16; 11] = [0, 4, 12, 15, 16, 18, 20, 28, 64, 0xfffc, 0xffff];

/// Those of them that a field may have in so short a datagram.
pub(crate) const WHOLE_LENGTHS: [u16; 4] = [16, 20, 28, 64];

/// Whether both readers read the same of octets with such fields, cut at each length from 48 octets on.
pub(crate) fn agrees_on(lengths: &[u16]) -> bool {
    let octets = generated(lengths);
    (48..MOST_OCTETS + 1).all(|length| agrees(&octets[..length]))
}

// Octets that count up, except that these lengths are written into the fields behind the header.
fn generated(lengths: &[u16]) -> [u8; MOST_OCTETS] {
    let mut octets = [0; MOST_OCTETS];
    let mut count = 0u8;
    for octet in octets.iter_mut() {
        *octet = count;
        count = count.wrapping_add(1);
    }
    let mut place = 48u16;
    for length in lengths {
        let [high, low] = length.to_be_bytes();
        put(&mut octets, place.saturating_add(2), high);
        put(&mut octets, place.saturating_add(3), low);
        place = place.saturating_add(*length);
    }
    octets
}

fn put(octets: &mut [u8], place: u16, octet: u8) {
    if let Some(there) = octets.get_mut(usize::from(place)) {
        *there = octet;
    }
}

fn agrees(octets: &[u8]) -> bool {
    let at = last_place(octets);
    let (before, rest) = octets.split_at(usize::from(at).min(octets.len()));
    match (read_request(octets), fault_of(rest, at)) {
        (Ok(request), None) => {
            request.signed == before
                && Some(request.tail) == tail_of(rest)
                && before.get(48..) == Some(spelled(request.fields).as_slice())
        }
        (Err(fault), Some(expected)) => fault == expected,
        _ => false,
    }
}

// The last place that whole fields lead to.
fn last_place(octets: &[u8]) -> u16 {
    for place in (49..MOST_PLACE + 1).rev() {
        if usize::from(place) <= octets.len() && is_place(octets, place) {
            return place;
        }
    }
    48
}

// Whether whole fields lead from the header to the place.
fn is_place(octets: &[u8], place: u16) -> bool {
    if place <= 48 {
        return true;
    }
    for before in 48..place {
        if leads(octets, before, place) && is_place(octets, before) {
            return true;
        }
    }
    false
}

// Whether a field stands at one place that reaches to the other.
fn leads(octets: &[u8], from: u16, to: u16) -> bool {
    match octets.get(usize::from(from)..) {
        Some(rest) => {
            rest.len() > 24
                && fault_of(rest, from).is_none()
                && usize::from(from) + usize::from(length_of(rest)) == usize::from(to)
        }
        None => false,
    }
}

// What is wrong with what remains from a place on, taken as a field or as a tail.
fn fault_of(rest: &[u8], at: u16) -> Option<Malformed> {
    let length = usize::from(length_of(rest));
    match rest.len() {
        0 | 4 | 20 | 24 => None,
        ..=24 => Some(Malformed::Rest { at }),
        _ if length < 16 => Some(Malformed::FieldShort { at }),
        _ if length % 4 > 0 => Some(Malformed::FieldUnaligned { at }),
        remaining if remaining < length => Some(Malformed::FieldPastEnd { at }),
        _ => None,
    }
}

fn length_of(field: &[u8]) -> u16 {
    match field {
        [_, _, high, low, ..] => u16::from_be_bytes([*high, *low]),
        _ => 0,
    }
}

fn tail_of(rest: &[u8]) -> Option<Tail<'_>> {
    match rest {
        [] => Some(Tail::Absent),
        [a, b, c, d, digest @ ..] => {
            let number = u32::from_be_bytes([*a, *b, *c, *d]);
            match digest.len() {
                0 => Some(Tail::Bare(number)),
                16 => Some(Tail::Md5 { number, digest }),
                20 => Some(Tail::Sha1 { number, digest }),
                _ => None,
            }
        }
        _ => None,
    }
}

/// The fields, spelled one behind another.
pub(crate) fn spelled(fields: Fields) -> ArrayVec<u8, 1024> {
    let mut octets = ArrayVec::new();
    for (kind, value) in fields {
        let [_, _, _, _, _, _, high, low] = (value.len() + 4).to_be_bytes();
        let _ = octets.try_extend_from_slice(&kind.to_be_bytes());
        let _ = octets.try_extend_from_slice(&[high, low]);
        let _ = octets.try_extend_from_slice(value);
    }
    octets
}
