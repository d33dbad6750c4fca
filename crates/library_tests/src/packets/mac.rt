//! Vectors from outside, and what no clause says.

use arrayvec::ArrayVec;
use ntp_mac::{Algorithm, Digest, Key, KeyFault, Reply, add_nak, digest, seal, verifies};
use ntp_packet::{read_header, read_request};
use std::test::Fail;

// The header of a time reply.
const HEADER: [u8; 48] = [
    0x1c, 0x01, 0x06, 0xec, 0x00, 0x00, 0x00, 0x00, 0x00, 0x00, 0x00, 0x10, 0x4e, 0x49, 0x53, 0x54,
    0xec, 0x00, 0x00, 0x00, 0x00, 0x00, 0x00, 0x00, 0xec, 0x00, 0x00, 0x10, 0x80, 0x00, 0x00, 0x00,
    0xec, 0x00, 0x00, 0x10, 0x90, 0x00, 0x00, 0x00, 0xec, 0x00, 0x00, 0x10, 0x90, 0x00, 0x01, 0x00,
];

// A request with a field.
const REQUEST: [u8; 64] = [
    0x23, 0x00, 0x06, 0x00, 0x00, 0x00, 0x00, 0x00, 0x00, 0x00, 0x00, 0x00, 0x00, 0x00, 0x00, 0x00,
    0x00, 0x00, 0x00, 0x00, 0x00, 0x00, 0x00, 0x00, 0x00, 0x00, 0x00, 0x00, 0x00, 0x00, 0x00, 0x00,
    0x00, 0x00, 0x00, 0x00, 0x00, 0x00, 0x00, 0x00, 0xec, 0x00, 0x00, 0x10, 0x80, 0x00, 0x00, 0x00,
    0x01, 0x04, 0x00, 0x10, 0x00, 0x00, 0x00, 0x00, 0x00, 0x00, 0x00, 0x00, 0x00, 0x00, 0x00, 0x00,
];

// Its MAC by MD5 under the key `key` with the number 7, and by SHA-1 under the key `other` with the number 8.
const BY_MD5: [u8; 20] =
    *b"\0\0\0\x07\x7e\x0d\x7b\xee\x9f\xb9\x60\x2c\xe4\x13\xc9\x7c\xe2\xc9\x6e\x91";

const BY_SHA1: [u8; 24] =
    *b"\0\0\0\x08\xb7\x06\xa9\x9d\x99\x88\x14\xbe\x6d\xe4\x31\x61\xbc\xdd\x24\x8a\x63\x81\x46\x29";

// The texts of RFC 1321, A.5, each as a key and the octets behind it, and its digest.
const MD5_TEXTS: [(&str, &str, u128); 6] = [
    ("a", "", 0x0cc1_75b9_c0f1_b6a8_31c3_99e2_6977_2661),
    ("a", "bc", 0x9001_5098_3cd2_4fb0_d696_3f7d_28e1_7f72),
    (
        "message",
        " digest",
        0xf96b_697d_7cb7_938d_525a_2f31_aaf1_61d0,
    ),
    (
        "abcdefghijklm",
        "nopqrstuvwxyz",
        0xc3fc_d3d7_6192_e400_7dfb_496c_ca67_e13b,
    ),
    (
        "ABCDEFGHIJKLMNOPQRSTUVWXYZabcdef",
        "ghijklmnopqrstuvwxyz0123456789",
        0xd174_ab98_d277_d9f5_a561_1c2c_9f41_9d9f,
    ),
    (
        "1234567890",
        "1234567890123456789012345678901234567890123456789012345678901234567890",
        0x57ed_f4a2_2be3_c955_ac49_da2e_2107_b67a,
    ),
];

// The digest of octets behind a key.
fn digest_of(algorithm: Algorithm, key: &str, octets: &str) -> Result<Digest, Fail> {
    let key = Key::new(algorithm, key.as_bytes())?;
    Ok(digest(&key, octets.as_bytes()))
}

#[test]
fn digests_of_md5(rt: HostRuntime) -> Result<(), Fail> {
    for (key, octets, expected) in MD5_TEXTS {
        let digest = digest_of(Algorithm::Md5, key, octets)?;
        let expected = Digest::Md5(expected.to_be_bytes());
        assert!(rt; digest == expected, "of {octets}");
    }
    Ok(())
}

// The texts of the examples for FIPS 180-4, each as a key and the octets behind it, and its digest.
const SHA1_TEXTS: [(&str, &str, [u8; 20]); 2] = [
    (
        "a",
        "bc",
        *b"\xa9\x99\x3e\x36\x47\x06\x81\x6a\xba\x3e\x25\x71\x78\x50\xc2\x6c\x9c\xd0\xd8\x9d",
    ),
    (
        "abcdbcdecdefdefg",
        "efghfghighijhijkijkljklmklmnlmnomnopnopq",
        *b"\x84\x98\x3e\x44\x1c\x3b\xd2\x6e\xba\xae\x4a\xa1\xf9\x51\x29\xe5\xe5\x46\x70\xf1",
    ),
];

#[test]
fn digests_of_sha1(rt: HostRuntime) -> Result<(), Fail> {
    for (key, octets, expected) in SHA1_TEXTS {
        let digest = digest_of(Algorithm::Sha1, key, octets)?;
        assert!(rt; digest == Digest::Sha1(expected), "of {octets}");
    }
    Ok(())
}

#[test]
fn keys_of_1_to_32_octets(rt: HostRuntime) {
    for (algorithm, octets, fault) in [
        (Algorithm::Md5, [].as_slice(), Some(KeyFault::Empty)),
        (Algorithm::Md5, &[7; 33], Some(KeyFault::TooLong)),
        (Algorithm::Md5, &[7; 32], None),
        (Algorithm::Sha1, &[7], None),
    ] {
        assert!(rt; Key::new(algorithm, octets).err() == fault);
    }
}

#[test]
fn a_key_is_printed_without_its_octets(rt: HostRuntime) -> Result<(), Fail> {
    let key = Key::new(Algorithm::Md5, b"key")?;
    let printed = format!(in rt.alloc(); "{key:?}")?;
    assert_eq!(rt; printed.as_str(), "Key { algorithm: Md5, .. }");
    Ok(())
}

// A time reply, sealed.
fn sealed(algorithm: Algorithm, key: &[u8], number: u16) -> Result<Reply, Fail> {
    let mut reply = Reply::from_header(&read_header(&HEADER).ok_or("no header")?);
    seal(&Key::new(algorithm, key)?, number, &mut reply);
    Ok(reply)
}

// The key numbers and the digests of that reply, sealed by MD5 and by SHA-1.
const MD5_MAC: [u8; 20] =
    *b"\0\0\0\x07\x7b\xcf\xfc\xfd\x4b\xb6\x86\x4e\xdc\x41\x08\x77\x39\x9f\x16\xc8";

const SHA1_MAC: [u8; 24] =
    *b"\0\0\x01\x08\xe8\xb5\x74\x13\x65\x9e\x04\xa8\xf6\xd2\xf1\xd4\x76\x28\xaf\xad\xe1\x8c\x62\x83";

// Whether a sealed reply has the header, and this MAC behind it.
fn is_sealed(reply: &Reply, mac: &[u8]) -> bool {
    reply.octets().starts_with(&HEADER) && reply.octets().get(48..) == Some(mac)
}

#[test]
fn sealed_replies(rt: HostRuntime) -> Result<(), Fail> {
    let by_md5 = sealed(Algorithm::Md5, b"key", 7)?;
    assert!(rt; is_sealed(&by_md5, &MD5_MAC));
    let by_sha1 = sealed(Algorithm::Sha1, b"other", 0x0108)?;
    assert!(rt; is_sealed(&by_sha1, &SHA1_MAC));
    Ok(())
}

#[test]
fn a_crypto_nak_has_four_octets_of_zero(rt: HostRuntime) -> Result<(), Fail> {
    let mut reply = Reply::from_header(&read_header(&HEADER).ok_or("no header")?);
    add_nak(&mut reply);
    assert!(rt; reply.octets().get(48..) == Some([0; 4].as_slice()));
    Ok(())
}

#[test]
fn replies_of_at_most_72_octets(rt: HostRuntime) {
    for (octets, is_reply) in [([1; 72].as_slice(), true), (&[1; 73], false)] {
        assert!(rt; Reply::from_octets(octets).is_some() == is_reply);
    }
}

#[test]
fn replies_are_equal_where_their_octets_are(rt: HostRuntime) {
    let reply = Reply::from_octets(&[1; 48]);
    assert!(rt; reply == Reply::from_octets(&[1; 48]));
    assert!(rt; reply != Reply::from_octets(&[1; 49]));
}

// Whether the request with this MAC is signed by a key.
fn is_signed(mac: &[u8], algorithm: Algorithm, key: &[u8], number: u16) -> Result<bool, Fail> {
    let mut octets = ArrayVec::<u8, 88>::new();
    octets.try_extend_from_slice(&REQUEST)?;
    octets.try_extend_from_slice(mac)?;
    let key = Key::new(algorithm, key)?;
    Ok(verifies(&key, number, &read_request(&octets)?))
}

#[test]
fn signed_requests(rt: HostRuntime) -> Result<(), Fail> {
    assert!(rt; is_signed(&BY_MD5, Algorithm::Md5, b"key", 7)?);
    assert!(rt; !is_signed(&BY_MD5, Algorithm::Md5, b"key", 8)?);
    assert!(rt; !is_signed(&BY_MD5, Algorithm::Md5, b"other", 7)?);
    assert!(rt; !is_signed(&BY_MD5, Algorithm::Sha1, b"key", 7)?);
    assert!(rt; is_signed(&BY_SHA1, Algorithm::Sha1, b"other", 8)?);
    Ok(())
}

#[test]
fn a_forged_request_is_not_signed(rt: HostRuntime) -> Result<(), Fail> {
    let mut forged = BY_MD5;
    forged[19] ^= 1;
    assert!(rt; !is_signed(&forged, Algorithm::Md5, b"key", 7)?);
    Ok(())
}
