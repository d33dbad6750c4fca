//! Packets of version 4 that are signed with the key number 7.

/// The first four words of a reply of a primary server.
pub const PRIMARY: u128 = 0x2401_06ec_0000_0000_0000_0010_4e49_5354;

// The first four words of a query.
const QUERY: u128 = 0x2300_0600_0000_0000_0000_0000_0000_0000;

/// A packet with this header and this digest.
pub fn packet(header: [u128; 3], digest: u128) -> [u8; 68] {
    let mut octets = [0; 68];
    octets[..16].copy_from_slice(&header[0].to_be_bytes());
    octets[16..32].copy_from_slice(&header[1].to_be_bytes());
    octets[32..48].copy_from_slice(&header[2].to_be_bytes());
    octets[51] = 7;
    octets[52..].copy_from_slice(&digest.to_be_bytes());
    octets
}

/// Two stamps, one behind the other.
pub fn stamps(first: u64, second: u64) -> u128 {
    u128::from(first) << 64 | u128::from(second)
}

/// A query with these stamps.
pub fn query(origin: u64, receive: u64, transmit: u64, digest: u128) -> [u8; 68] {
    let times = [stamps(0, origin), stamps(receive, transmit)];
    packet([QUERY, times[0], times[1]], digest)
}

/// A reply of a server, whose clock was set at the stamp ec00000000000000, with these first words and these stamps.
pub fn reply(words: u128, origin: u64, receive: u64, transmit: u64, digest: u128) -> [u8; 68] {
    let set = 0xec00_0000_0000_0000;
    let times = [stamps(set, origin), stamps(receive, transmit)];
    packet([words, times[0], times[1]], digest)
}
