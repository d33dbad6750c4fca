//! A capture file in pcap form: its header, its records in order, the IPv4 packet of a frame, and the UDP datagram of a packet.
ghost use Rattle.std.specs.Prelude.{◌≡◌, ◌↔◌, ◌≤◌, ◌<◌, ◌+◌, ◌++◌, List, ℕ, length, Some, None, Err, IfOk, IfErr, IfSome, IfNone};
ghost use Rattle.std.specs.List.{slice_range};
ghost use Rattle.ntp_clerk.specs.Capture.{two_octets, order_of, number_at, link_of, HasHead, IsRecord, IsPacketOf, IsIpHead, IsUdpHead, IsDatagram};

use std::fmt;

/// The type of protocol of IPv4 (RFC 894).
const IPV4: u64 = 0x0800;

/// The protocol UDP (RFC 768).
const UDP: u8 = 17;

/// How many octets the header of UDP has.
const UDP_HEAD_OCTETS: usize = 8;

/// The order of the octets in a file's numbers.
#[derive(Clone, Copy, Debug, PartialEq, Eq)]
pub enum Order {
    BigEndian,
    LittleEndian,
}

/// A capture file.
#[derive(Clone, Copy)]
pub struct Capture<'a> {
    /// The order of the octets in its numbers.
    pub order: Order,
    /// What its frames begin with.
    pub link: Link,
    /// The records, as they stand.
    pub records: &'a [u8],
}

/// A record of a capture file, and what stands behind it.
#[derive(Clone, Copy)]
pub struct Record<'a> {
    /// When it was captured, in seconds since 1970.
    pub seconds: u64,
    /// What was captured.
    pub frame: &'a [u8],
    pub behind: &'a [u8],
}

/// Why a file is none that can be read.
#[derive(Clone, Copy, Debug, PartialEq, Eq)]
pub enum CaptureFault {
    /// It is in the form pcapng.
    NextGeneration,
    /// It does not begin as a capture file does.
    Head,
    /// Its frames begin in a way that is not known here.
    Link(u64),
}

/// What is wrong, in words.
impl fmt::Display for CaptureFault {
    fn fmt<W: fmt::Write>(&self, f: &mut fmt::Formatter<W>) -> fmt::Result {
        match self {
            CaptureFault::NextGeneration => f.write_str(
                "this is pcapng: pcap is wanted, which tcpdump -w writes",
            ),
            CaptureFault::Head => f.write_str("this is no capture file in pcap form"),
            CaptureFault::Link(number) => write!(
                f,
                "link type {number}: 1 (Ethernet), 12, 101 or 228 (IP alone), 113 or 276 (Linux cooked) are wanted"
            ),
        }
    }
}

/// The capture file that has these octets.
pub fn capture_in(octets: &[u8]) -> Result<Capture<'_>, CaptureFault>
    ensures whole { IfOk result (λ capture. HasHead octets.now capture.order capture.link capture.records.now) }
    ensures none { IfErr result (λ fault. (order : Order) (link : Link) (records : List ℕ) → HasHead octets.now order link records → ⊥) }
    ensures next_generation { (result ≡ Err CaptureFault.NextGeneration) ↔ ((24 ≤ length octets.now) × (number_at Order.BigEndian octets.now 0 ≡ 168627466)) }
    ensures link { (number : ℕ) → (result ≡ Err (CaptureFault.Link number)) ↔ ((order : Order) × (24 ≤ length octets.now) × (order_of (number_at Order.BigEndian octets.now 0) ≡ Some order) × (number_at order octets.now 20 ≡ number) × (link_of number ≡ None)) }
{
    if octets.len() < 24 {
        return Err(CaptureFault::Head);
    }
    let magic = number_at(Order::BigEndian, octets, 0);
    if magic == 0x0a0d_0d0a {
        return Err(CaptureFault::NextGeneration);
    }
    let order = order_of(magic).ok_or(CaptureFault::Head)?;
    let number = number_at(order, octets, 20);
    let link = link_of(number).ok_or(CaptureFault::Link(number))?;
    Ok(Capture {
        order,
        link,
        records: &octets[24..],
    })
}

// The order that a magic number has for stamps in microseconds, and in nanoseconds (pcap-savefile(5)).
fn order_of(magic: u64) -> Option<Order>
    ensures { result ≡ order_of magic }
{
    match magic {
        0xa1b2_c3d4 | 0xa1b2_3c4d => Some(Order::BigEndian),
        0xd4c3_b2a1 | 0x4d3c_b2a1 => Some(Order::LittleEndian),
        _ => None,
    }
}

// The number of four octets from a place on.
fn number_at(order: Order, octets: &[u8], at: usize) -> u64
    requires { at + 4 ≤ length octets.now }
    ensures number { result ≡ number_at order octets.now at }
    ensures small { result < 4294967296 }
{
    match order {
        Order::BigEndian => two_octets(octets, at) * 65_536 + two_octets(octets, at + 2),
        Order::LittleEndian => {
            u64::from(octets[at])
                + u64::from(octets[at + 1]) * 256
                + u64::from(octets[at + 2]) * 65_536
                + u64::from(octets[at + 3]) * 16_777_216
        }
    }
}

/// The first of the records that these octets are; none where it is cut short, or there is none.
pub fn next_record(order: Order, octets: &[u8]) -> Option<Record<'_>>
    ensures whole { IfSome result (λ found. IsRecord order octets.now found.frame.now found.behind.now) }
    ensures seconds { IfSome result (λ found. found.seconds ≡ number_at order octets.now 0) }
    ensures none { IfNone result ((frame : List ℕ) (behind : List ℕ) → IsRecord order octets.now frame behind → ⊥) }
{
    let (_head, rest) = octets.split_at_checked(16)?;
    let (seconds, captured) = (number_at(order, octets, 0), number_at(order, octets, 8));
    let (frame, behind) = rest.split_at_checked(captured as usize)?;
    Some(Record {
        seconds,
        frame,
        behind,
    })
}

/// What the frames of a capture file begin with (pcap-linktype(7)).
#[derive(Clone, Copy, Debug, PartialEq, Eq)]
pub enum Link {
    Ethernet,
    /// A header that Linux makes where each host has another link, in its first form.
    Cooked,
    /// The same in its second form.
    CookedSecond,
    /// The IP packet itself.
    Packet,
}

// The type of link with a number, whose lower 16 bits count.
fn link_of(number: u64) -> Option<Link>
    ensures { result ≡ link_of number }
{
    match number % 65_536 {
        1 => Some(Link::Ethernet),
        113 => Some(Link::Cooked),
        276 => Some(Link::CookedSecond),
        12 | 101 | 228 => Some(Link::Packet),
        _ => None,
    }
}

/// The IPv4 packet of a frame, if it has one.
pub fn packet_in(link: Link, frame: &[u8]) -> Option<&[u8]>
    ensures whole { IfSome result (λ packet. IsPacketOf link frame.now packet.now) }
    ensures none { IfNone result ((packet : List ℕ) → IsPacketOf link frame.now packet → ⊥) }
{
    match link {
        Link::Ethernet => behind_head(frame, 14, 12),
        Link::Cooked => behind_head(frame, 16, 14),
        Link::CookedSecond => behind_head(frame, 20, 0),
        Link::Packet => Some(frame),
    }
}

// What stands behind a header of `octets` octets that has the type of protocol at `at`, where that is IPv4.
fn behind_head(frame: &[u8], octets: usize, at: usize) -> Option<&[u8]>
    requires { at + 2 ≤ octets }
    ensures whole { IfSome result (λ packet. (head : List ℕ) × (frame.now ≡ head ++ packet.now) × (length head ≡ octets) × (two_octets head at ≡ 2048)) }
    ensures none { IfNone result ((head : List ℕ) (packet : List ℕ) → frame.now ≡ head ++ packet → length head ≡ octets → two_octets head at ≡ 2048 → ⊥) }
{
    let (head, packet) = frame.split_at_checked(octets)?;
    (two_octets(head, at) == IPV4).then_some(packet)
}

/// A UDP datagram.
#[derive(Clone, Copy)]
pub struct Datagram<'a> {
    /// The address from which it came.
    pub source: [u8; 4],
    pub payload: &'a [u8],
}

/// The UDP datagram to a port that an IPv4 packet is, if it is one as a whole, and no fragment.
pub fn datagram_in(packet: &[u8], port: u16) -> Option<Datagram<'_>>
    ensures whole { IfSome result (λ datagram. IsDatagram packet.now datagram.source port datagram.payload.now) }
    ensures none { IfNone result ((source : List ℕ) (payload : List ℕ) → IsDatagram packet.now source port payload → ⊥) }
{
    let (ip, behind) = ip_head(packet)?;
    let (udp, behind) = behind.split_at_checked(UDP_HEAD_OCTETS)?;
    let octets = payload_octets(udp, port)?;
    let (payload, _padding) = behind.split_at_checked(octets)?;
    Some(Datagram {
        source: [ip[12], ip[13], ip[14], ip[15]],
        payload,
    })
}

// The header of an IPv4 packet that is a whole UDP datagram, and what stands behind it.
fn ip_head(packet: &[u8]) -> Option<(&[u8], &[u8])>
    ensures whole { IfSome result (λ split. (packet.now ≡ split.0.now ++ split.1.now) × IsIpHead split.0.now) }
    ensures none { IfNone result ((ip : List ℕ) (behind : List ℕ) → packet.now ≡ ip ++ behind → IsIpHead ip → ⊥) }
{
    let first = *packet.first()?;
    if first < 69 || first > 79 {
        return None;
    }
    let (ip, behind) = packet.split_at_checked(usize::from(first - 64) * 4)?;
    (ip[9] == UDP && ip[6] % 64 == 0 && ip[7] == 0).then_some((ip, behind))
}

// How many octets a payload has, by the header of UDP before it, if that names the port.
fn payload_octets(udp: &[u8], port: u16) -> Option<usize>
    requires { length udp.now ≡ 8 }
    ensures whole { IfSome result (λ octets. IsUdpHead udp.now port octets) }
    ensures none { IfNone result ((octets : ℕ) → IsUdpHead udp.now port octets → ⊥) }
{
    let octets = (two_octets(udp, 4) as usize).checked_sub(UDP_HEAD_OCTETS)?;
    (two_octets(udp, 2) == u64::from(port)).then_some(octets)
}

// The number of two octets from a place on, the most significant first.
fn two_octets(octets: &[u8], at: usize) -> u64
    requires { at + 2 ≤ length octets.now }
    ensures number { result ≡ two_octets octets.now at }
    ensures small { result < 65536 }
{
    u64::from(octets[at]) * 256 + u64::from(octets[at + 1])
}
