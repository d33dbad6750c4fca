//! The state of the server's own clock, as its replies tell it.
ghost use Rattle.std.specs.Prelude.{◌≡◌, ◌≤◌};
ghost use Rattle.ntp_reply.specs.Reference.{MakesState};

use ntp_packet::{ClockFields, Short, Stamp};
use std::marker::Model;

/// What is refused: a leap above 3, a stratum of 0 or above 16, or only one of leap 3 and stratum 16.
#[derive(Clone, Copy, Debug, PartialEq, Eq)]
pub struct BadReference;

/// The reference state that a server hands in with a datagram (RFC 5905, 7.3). Leap 3 and stratum
/// 16 both mean that the clock is unsynchronised, and stand only together (profile).
#[derive(Clone, Copy, Debug, PartialEq, Eq)]
pub struct Reference {
    fields: ClockFields,
}

impl Model for Reference {
    ghost use Rattle.std.specs.Prelude.{◌≡◌, length};
    ghost use Rattle.ntp_reply.specs.Reference.{ReferenceState, IsReference};

    ghost Value = { ReferenceState };

    ghost view = { λ r. r.fields };

    ghost invariant = { λ r. IsReference r.fields × (length r.fields.reference_id ≡ 4) };

    ghost inverse = { λ fields. record { fields = fields } };
}

impl Reference {
    /// The state of these fields: leap 0 to 3, stratum 1 to 16, and unsynchronised, 3 and 16, in both or in neither.
    pub fn of(fields: ClockFields) -> Result<Reference, BadReference>
        ensures { MakesState fields result }
    {
        let is_in_range = fields.leap <= 3 && 1 <= fields.stratum && fields.stratum <= 16;
        if !is_in_range || (fields.leap == 3) != (fields.stratum == 16) {
            return Err(BadReference);
        }
        Ok(Reference { fields })
    }

    /// A reference state of these fields: leap 0 to 3, stratum 1 to 16, the precision as the binary
    /// logarithm of seconds, delay and dispersion in units of 2^-16 seconds, the identifier of the
    /// reference clock, and the stamp at which the clock was last set.
    pub fn new(
        leap: u8,
        stratum: u8,
        precision: i8,
        root_delay: Short,
        root_dispersion: Short,
        id: [u8; 4],
        reference: Stamp,
    ) -> Result<Reference, BadReference>
        ensures { MakesState (record {
          leap = leap;
          stratum = stratum;
          precision = precision;
          root_delay = root_delay;
          root_dispersion = root_dispersion;
          reference_id = id;
          reference = reference;
        }) result }
    {
        Reference::of(ClockFields {
            leap,
            stratum,
            precision,
            root_delay,
            root_dispersion,
            reference_id: id,
            reference,
        })
    }

    /// Its fields. An unsynchronised clock has stratum 16 here, which a packet shows as 0.
    pub fn fields(&self) -> ClockFields
        ensures value { result ≡ self.now }
        ensures leap_fits { result.leap ≤ 3 }
    {
        self.fields
    }

    /// The leap indicator, 0 to 3; 3 is unsynchronised.
    pub fn leap(&self) -> u8
        ensures value { result ≡ self.now.leap }
        ensures fits { result ≤ 3 }
    {
        self.fields.leap
    }

    /// The stratum, 1 to 16; 16 is unsynchronised.
    pub fn stratum(&self) -> u8
        ensures { result ≡ self.now.stratum }
    {
        self.fields.stratum
    }

    /// The precision of the clock, as the binary logarithm of seconds.
    pub fn precision(&self) -> i8
        ensures { result ≡ self.now.precision }
    {
        self.fields.precision
    }

    /// The round trip delay to the reference clock.
    pub fn root_delay(&self) -> Short
        ensures { result ≡ self.now.root_delay }
    {
        self.fields.root_delay
    }

    /// The dispersion to the reference clock.
    pub fn root_dispersion(&self) -> Short
        ensures { result ≡ self.now.root_dispersion }
    {
        self.fields.root_dispersion
    }

    /// The identifier of the reference clock.
    pub fn id(&self) -> [u8; 4]
        ensures { result ≡ self.now.reference_id }
    {
        self.fields.reference_id
    }

    /// When the clock was last set.
    pub fn reference(&self) -> Stamp
        ensures { result ≡ self.now.reference }
    {
        self.fields.reference
    }
}
