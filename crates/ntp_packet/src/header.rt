//! The fields of a header, a reader for each, and headers whose fields are set by name.
ghost use Rattle.std.specs.Prelude.{◌≡◌, ◌≤◌, length};
ghost use Rattle.ntp_packet.specs.Header.{blank_header};

use crate::{ClockFields, Short, Stamp};
use std::marker::Model;

/// How many octets a header has (RFC 5905, 7.3).
pub const HEADER_OCTETS: usize = 48;

/// An NTP packet header (RFC 5905, 7.3), of any version. Contracts see its fields, those of the clock as one record.
#[derive(Clone, Copy, Debug, PartialEq, Eq)]
pub struct Header {
    version: u8,
    mode: u8,
    poll: i8,
    clock: ClockFields,
    origin: Stamp,
    receive: Stamp,
    transmit: Stamp,
}

impl Model for Header {
    ghost use Rattle.std.specs.Prelude.{◌≡◌, ◌≤◌, length};
    ghost use Rattle.ntp_packet.specs.Header.{HeaderFields};

    ghost Value = { HeaderFields };

    ghost view = { λ h. record {
      version = h.version;
      mode = h.mode;
      poll = h.poll;
      clock = h.clock;
      origin = h.origin;
      receive = h.receive;
      transmit = h.transmit;
    } };

    ghost invariant = { λ h. (h.clock.leap ≤ 3) × (length h.clock.reference_id ≡ 4) × (h.version ≤ 7) × (h.mode ≤ 7) };

    ghost inverse = { λ h. record {
      version = h.version;
      mode = h.mode;
      poll = h.poll;
      clock = h.clock;
      origin = h.origin;
      receive = h.receive;
      transmit = h.transmit;
    } };
}

impl Header {
    /// A header of these fields, in the order of the packet. Leap has two bits, version and mode three.
    pub fn new(
        leap: u8,
        version: u8,
        mode: u8,
        stratum: u8,
        poll: i8,
        precision: i8,
        root_delay: Short,
        root_dispersion: Short,
        reference_id: [u8; 4],
        reference: Stamp,
        origin: Stamp,
        receive: Stamp,
        transmit: Stamp,
    ) -> Header
        requires leap_fits { leap ≤ 3 }
        requires version_fits { version ≤ 7 }
        requires mode_fits { mode ≤ 7 }
        ensures { result ≡ record {
          version = version;
          mode = mode;
          poll = poll;
          clock = record {
            leap = leap;
            stratum = stratum;
            precision = precision;
            root_delay = root_delay;
            root_dispersion = root_dispersion;
            reference_id = reference_id;
            reference = reference;
          };
          origin = origin;
          receive = receive;
          transmit = transmit;
        } }
    {
        Header {
            version,
            mode,
            poll,
            clock: ClockFields {
                leap,
                stratum,
                precision,
                root_delay,
                root_dispersion,
                reference_id,
                reference,
            },
            origin,
            receive,
            transmit,
        }
    }

    /// A header of a version and a mode, with three bits each (RFC 5905, 7.3). All else is 0, so that a
    /// packet of few fields is made by naming just these.
    pub fn blank(version: u8, mode: u8) -> Header
        requires version_fits { version ≤ 7 }
        requires mode_fits { mode ≤ 7 }
        ensures { result ≡ blank_header version mode }
    {
        Header {
            version,
            mode,
            poll: 0,
            clock: ClockFields {
                leap: 0,
                stratum: 0,
                precision: 0,
                root_delay: Short(0),
                root_dispersion: Short(0),
                reference_id: [0; 4],
                reference: Stamp(0),
            },
            origin: Stamp(0),
            receive: Stamp(0),
            transmit: Stamp(0),
        }
    }

    /// This header with other fields of the clock, a leap indicator of two bits among them (RFC 5905, 7.3).
    #[must_use]
    pub fn with_clock(self, clock: ClockFields) -> Header
        requires leap_fits { clock.leap ≤ 3 }
        ensures { result ≡ record self { clock = clock } }
    {
        Header { clock, ..self }
    }

    /// This header with another leap indicator, of two bits: 3 is unsynchronised (RFC 5905, 7.3).
    #[must_use]
    pub fn with_leap(self, leap: u8) -> Header
        requires leap_fits { leap ≤ 3 }
        ensures { result ≡ record self { clock = record self.clock { leap = leap } } }
    {
        let clock = ClockFields { leap, ..self.clock };
        Header { clock, ..self }
    }

    /// This header with another longest time between messages, as the binary logarithm of seconds
    /// (RFC 5905, 7.3).
    #[must_use]
    pub fn with_poll(self, poll: i8) -> Header
        ensures { result ≡ record self { poll = poll } }
    {
        Header { poll, ..self }
    }

    /// This header with another reference identifier, which in a kiss is its code (RFC 5905, 7.3 and 7.4).
    #[must_use]
    pub fn with_reference_id(self, reference_id: [u8; 4]) -> Header
        ensures { result ≡ record self { clock = record self.clock { reference_id = reference_id } } }
    {
        let clock = ClockFields {
            reference_id,
            ..self.clock
        };
        Header { clock, ..self }
    }

    /// This header with another origin stamp, in units of 2^-32 seconds (RFC 5905, 6 and 7.3).
    #[must_use]
    pub fn with_origin(self, origin: Stamp) -> Header
        ensures { result ≡ record self { origin = origin } }
    {
        Header { origin, ..self }
    }

    /// This header with another receive stamp, in units of 2^-32 seconds (RFC 5905, 6 and 7.3).
    #[must_use]
    pub fn with_receive(self, receive: Stamp) -> Header
        ensures { result ≡ record self { receive = receive } }
    {
        Header { receive, ..self }
    }

    /// This header with another transmit stamp, in units of 2^-32 seconds (RFC 5905, 6 and 7.3).
    #[must_use]
    pub fn with_transmit(self, transmit: Stamp) -> Header
        ensures { result ≡ record self { transmit = transmit } }
    {
        Header { transmit, ..self }
    }

    /// The fields that tell the state of the server's clock.
    pub fn clock(&self) -> ClockFields
        ensures value { result ≡ self.now.clock }
        ensures leap_fits { result.leap ≤ 3 }
    {
        self.clock
    }

    /// The leap indicator: 0 no warning, 1 the last minute has 61 seconds, 2 it has 59, 3 unsynchronised.
    pub fn leap(&self) -> u8
        ensures value { result ≡ self.now.clock.leap }
        ensures fits { result ≤ 3 }
    {
        self.clock.leap
    }

    /// The version number.
    pub fn version(&self) -> u8
        ensures value { result ≡ self.now.version }
        ensures fits { result ≤ 7 }
    {
        self.version
    }

    /// The mode: 3 is a client's, 4 a server's.
    pub fn mode(&self) -> u8
        ensures value { result ≡ self.now.mode }
        ensures fits { result ≤ 7 }
    {
        self.mode
    }

    /// The stratum: 1 is primary, 2 to 15 secondary; a packet has 0 for unsynchronised, and in a kiss.
    pub fn stratum(&self) -> u8
        ensures { result ≡ self.now.clock.stratum }
    {
        self.clock.stratum
    }

    /// The longest time between messages, as the binary logarithm of seconds.
    pub fn poll(&self) -> i8
        ensures { result ≡ self.now.poll }
    {
        self.poll
    }

    /// The clock's precision, as the binary logarithm of seconds.
    pub fn precision(&self) -> i8
        ensures { result ≡ self.now.clock.precision }
    {
        self.clock.precision
    }

    /// The round trip delay to the reference clock.
    pub fn root_delay(&self) -> Short
        ensures { result ≡ self.now.clock.root_delay }
    {
        self.clock.root_delay
    }

    /// The dispersion to the reference clock.
    pub fn root_dispersion(&self) -> Short
        ensures { result ≡ self.now.clock.root_dispersion }
    {
        self.clock.root_dispersion
    }

    /// The reference identifier: of the server or the reference clock, or a kiss code.
    pub fn reference_id(&self) -> [u8; 4]
        ensures value { result ≡ self.now.clock.reference_id }
        ensures four { length result ≡ 4 }
    {
        self.clock.reference_id
    }

    /// When the system clock was last set.
    pub fn reference(&self) -> Stamp
        ensures { result ≡ self.now.clock.reference }
    {
        self.clock.reference
    }

    /// In a reply, when the request departed, by the client's clock.
    pub fn origin(&self) -> Stamp
        ensures { result ≡ self.now.origin }
    {
        self.origin
    }

    /// When the request arrived, by the server's clock.
    pub fn receive(&self) -> Stamp
        ensures { result ≡ self.now.receive }
    {
        self.receive
    }

    /// When this packet departed.
    pub fn transmit(&self) -> Stamp
        ensures { result ≡ self.now.transmit }
    {
        self.transmit
    }
}
