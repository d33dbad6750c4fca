//! Worked datagrams and fields, and a comparison with a plain program on many datagrams.

use crate::packets::plain_reader::{LENGTHS, WHOLE_LENGTHS, agrees_on, spelled};
use arrayvec::ArrayVec;
use ntp_packet::{FieldFault, Malformed, Tail, read_request, write_field};
use std::process::Abort;
use std::test::Fail;

/// A client's request of version 4: mode 3, poll 6, and a transmit stamp.
const HEADER: [u8; 48] = [
    0x23, 0, 6, 0, 0, 0, 0, 0, 0, 0, 0, 0, 0, 0, 0, 0, 0, 0, 0, 0, 0, 0, 0, 0, 0, 0, 0, 0, 0, 0, 0,
    0, 0, 0, 0, 0, 0, 0, 0, 0, 0xec, 0x00, 0x00, 0x10, 0x80, 0x00, 0x00, 0x00,
];

/// Five octets as a field of kind 0x0104, padded to 16.
const PADDED_TO_16: [u8; 16] = [1, 4, 0, 16, 1, 2, 3, 4, 5, 0, 0, 0, 0, 0, 0, 0];

/// Thirteen octets as such a field, padded to 20.
const PADDED_TO_20: [u8; 20] = [1, 4, 0, 20, 9, 9, 9, 9, 9, 9, 9, 9, 9, 9, 9, 9, 9, 0, 0, 0];

// The header with some octets behind it.
fn datagram(behind: &[u8]) -> ArrayVec<u8, 1100> {
    let mut octets = ArrayVec::new();
    let _ = octets.try_extend_from_slice(&HEADER);
    let _ = octets.try_extend_from_slice(behind);
    octets
}

// A field of kind 0x0104 that says this length, with 24 octets of zeros behind that.
fn field(length: u8) -> [u8; 28] {
    let mut field = [0; 28];
    field[0] = 0x01;
    field[1] = 0x04;
    field[3] = length;
    field
}

#[test]
fn reads_a_field_with_no_mac(rt: HostRuntime) -> Result<(), Fail> {
    let octets = datagram(&field(28));
    let request = read_request(octets.as_slice())?;
    assert!(rt; request.header.mode() == 3 && request.signed.len() == 76);
    assert!(rt; request.tail == Tail::Absent);
    assert!(rt; spelled(request.fields).as_slice() == field(28).as_slice());
    Ok(())
}

// What is wrong with the header with some octets behind it.
fn fault_of(behind: &[u8]) -> Option<Malformed> {
    read_request(datagram(behind).as_slice()).err()
}

#[test]
fn refuses_what_is_no_request(rt: HostRuntime) {
    assert!(rt; read_request(&HEADER[..47]).err() == Some(Malformed::Short));
    assert!(rt; fault_of(&[0; 977]) == Some(Malformed::Long));
    assert!(rt; fault_of(&[0; 16]) == Some(Malformed::Rest { at: 48 }));
    assert!(rt; fault_of(&field(0x0c)) == Some(Malformed::FieldShort { at: 48 }));
    assert!(rt; fault_of(&field(0x12)) == Some(Malformed::FieldUnaligned { at: 48 }));
    assert!(rt; fault_of(&field(0x40)) == Some(Malformed::FieldPastEnd { at: 48 }));
}

// Whether this tail is read of the header with some octets behind it.
fn has_tail(behind: &[u8], tail: Tail<'_>) -> bool {
    match read_request(datagram(behind).as_slice()) {
        Ok(request) => request.tail == tail,
        Err(_) => false,
    }
}

#[test]
fn reads_each_tail(rt: HostRuntime) {
    let md5 = Tail::Md5 {
        number: 0x07070707,
        digest: &[7; 16],
    };
    let sha1 = Tail::Sha1 {
        number: 0x08080808,
        digest: &[8; 20],
    };
    assert!(rt; has_tail(&[0; 4], Tail::Bare(0)));
    assert!(rt; has_tail(&[7; 20], md5));
    assert!(rt; has_tail(&[8; 24], sha1));
}

// Whether octets are written so as a field of kind 0x0104.
fn is_written(value: &[u8], expected: &[u8]) -> bool {
    let mut out = ArrayVec::new();
    write_field(0x0104, value, &mut out).is_ok() && out.as_slice() == expected
}

#[test]
fn writes_a_padded_field(rt: HostRuntime) {
    assert!(rt; is_written(&[1, 2, 3, 4, 5], &PADDED_TO_16));
    assert!(rt; is_written(&[9; 13], &PADDED_TO_20));
}

// What comes of a field of five octets behind others, which stay as they are; and how many there are then.
fn written_behind(rt: &impl Abort, before: &[u8]) -> (Result<(), FieldFault>, usize) {
    let mut out = ArrayVec::new();
    let _ = out.try_extend_from_slice(before);
    let written = write_field(0x0104, &[1, 2, 3, 4, 5], &mut out);
    assert!(rt; out.as_slice().starts_with(before));
    (written, out.len())
}

#[test]
fn writes_a_field_only_where_it_fits(rt: HostRuntime) {
    assert!(rt; written_behind(&rt, &[0; 1008]) == (Ok(()), 1024));
    assert!(rt; written_behind(&rt, &[0; 1012]) == (Err(FieldFault::Full), 1012));
}

// One to three fields, the last of any length, in datagrams of 48 to 130 octets.
#[test]
fn reads_what_a_plain_reader_reads(rt: HostRuntime) {
    for last in LENGTHS {
        assert!(rt; agrees_on(&[last]), "{last}");
        for before in WHOLE_LENGTHS {
            assert!(rt; agrees_on(&[before, last]), "{before} {last}");
            for first in WHOLE_LENGTHS {
                assert!(rt;
                    agrees_on(&[first, before, last]),
                    "{first} {before} {last}"
                );
            }
        }
    }
}
