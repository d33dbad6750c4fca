//! The packets of three turns of a server, and a turn with a datagram of the customer.

use crate::customer_and_clock::{CUSTOMER, moment};
use crate::memory_wire::{Incoming, Turn};
use crate::packets::{PRIMARY, query, reply};
use ntp_admin::Octets;
use std::alloc::Allocator;
use std::test::Fail;

/// When the datagrams of the three turns come.
pub const RECEIPTS: [u64; 3] = [
    0xec00_0010_9000_0000,
    0xec00_0011_9000_0000,
    0xec00_0012_9000_0000,
];

// Their transmit stamps.
const TRANSMITS: [u64; 3] = [
    0xec00_0010_8000_0000,
    0xec00_0011_8000_0000,
    0xec00_0012_8000_0000,
];

// When the reply to the second came.
const ARRIVAL: u64 = 0xec00_0011_a000_0000;

// The digests of the queries, and of the replies.
const QUERY_DIGESTS: [u128; 3] = [
    0xc54a_79b8_7ff9_9597_5180_769b_dd0a_5236,
    0x953d_5ca8_72a6_fd39_9292_0cf3_d9a2_c6bb,
    0x2d22_6b9c_b8a0_9db9_2af3_20f9_fa20_978f,
];

const REPLY_DIGESTS: [u128; 4] = [
    0xb26e_5765_47e4_15eb_d846_1f86_4849_12fe,
    0xe86c_f78d_3f39_b6d2_d8c9_46b0_09cc_ab85,
    0x44c8_d7d3_8360_a5dc_219f_6c57_3dcd_d177,
    0x5b64_9aeb_0baa_0030_1212_0d8b_3164_b7ac,
];

/// The signed queries of the three turns. The third names the exchange of the second.
pub fn queries() -> [[u8; 68]; 3] {
    let [first, second, third] = TRANSMITS;
    let [a, b, c] = QUERY_DIGESTS;
    [
        query(0, 0, first, a),
        query(0, 0, second, b),
        query(RECEIPTS[1], ARRIVAL, third, c),
    ]
}

/// The basic replies to the first and the second; the interleaved reply to the third, which carries the middle of the two readings around
/// the second's send; and the one where that was not sent, which carries when it was to depart.
pub fn replies() -> [[u8; 68]; 4] {
    let [first, second, third] = RECEIPTS;
    let [asked, again, _] = TRANSMITS;
    let [a, b, c, d] = REPLY_DIGESTS;
    [
        reply(PRIMARY, asked, first, first + 0x100, a),
        reply(PRIMARY, again, second, second + 0x100, b),
        reply(PRIMARY, ARRIVAL, third, second + 0x140, c),
        reply(PRIMARY, ARRIVAL, third, second + 0x100, d),
    ]
}

/// A turn in which the customer's octets come from a UDP port at a stamp. The clock shows 0x100 units of a stamp more before the reply is
/// sent, and 0x180 more behind that, if it can be sent.
pub fn turn<A: Allocator + Copy>(
    alloc: A,
    port: u16,
    receipt: u64,
    octets: &[u8],
    sends: bool,
) -> Result<Turn<A>, Fail> {
    Ok(Turn {
        arrival: Some(Incoming {
            address: CUSTOMER,
            port,
            receipt: moment(receipt),
            octets: Octets::new(octets.to_vec(alloc)?),
        }),
        transmit: moment(receipt.wrapping_add(0x100)),
        departure: moment(receipt.wrapping_add(0x180)),
        sends,
    })
}
