//! A field to octets.
ghost use Rattle.std.specs.Prelude.{◌≡◌, ◌↔◌, ◌+◌, ◌^◌, ◌<◌, ◌≤◌, ◌++◌, length, OnOk, OnErr, IsOk};
ghost use Rattle.arrayvec.specs.ArrayVec.{array_vec_len};
ghost use Rattle.ntp_packet.specs.Field.{field_octets, padding, padded_field, IsField};
ghost use Rattle.ntp_packet.specs.Request.{most_datagram_octets};

use crate::MOST_DATAGRAM_OCTETS;
use arrayvec::ArrayVec;

/// How many octets the value of a field has at least (RFC 7822, 3: 16 with kind and length).
const LEAST_VALUE_OCTETS: usize = 12;

/// Why a field is not written.
#[derive(Clone, Copy, Debug, PartialEq, Eq)]
pub enum FieldFault {
    /// There is too little room for the whole field.
    Full,
}

/// Appends an extension field (RFC 7822, 3): its kind and its whole length, each in 2 octets, then the
/// value, with zeros behind it up to a multiple of 4 octets and to at least 16 in all. `Full` exactly
/// where that does not fit; then `out` is unchanged.
#[tactic(auto, using(crate::proofs::Padding::length_padded_field, crate::proofs::Padding::IsField_padded))]
pub fn write_field(
    kind: u16,
    value: &[u8],
    out: &mut ArrayVec<u8, MOST_DATAGRAM_OCTETS>,
) -> Result<(), FieldFault>
    ensures written { OnOk result (out.new.items ≡ out.old.items ++ field_octets (padded_field kind value.now)) }
    ensures field { OnOk result (IsField (padded_field kind value.now)) }
    ensures fits { IsOk result ↔ (array_vec_len out.old + length (field_octets (padded_field kind value.now)) ≤ most_datagram_octets) }
    ensures unchanged { OnErr result (out.new ≡ out.old) }
{
    let padding = padding_of(value.len());
    let length = 4 + value.len() + padding;
    if length > out.remaining_capacity() {
        return Err(FieldFault::Full);
    }
    append(out, &kind.to_be_bytes());
    append(out, &(length as u16).to_be_bytes());
    append(out, value);
    append(out, &[0; LEAST_VALUE_OCTETS][..padding]);
    Ok(())
}

// How many zeros follow a value of `length` octets.
fn padding_of(length: usize) -> usize
    requires { length < 2 ^ 63 }
    ensures value { result ≡ padding length }
    ensures few { result ≤ 12 }
{
    LEAST_VALUE_OCTETS.max(length.next_multiple_of(4)) - length
}

// Appends octets for which there is room.
fn append(out: &mut ArrayVec<u8, MOST_DATAGRAM_OCTETS>, octets: &[u8])
    requires { array_vec_len out.old + length octets.now ≤ most_datagram_octets }
    ensures { out.new.items ≡ out.old.items ++ octets.now }
{
    let _ = out.try_extend_from_slice(octets);
}
