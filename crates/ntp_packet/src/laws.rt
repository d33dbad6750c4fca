//! What holds of the spelling of headers, whatever code reads or writes it. Each function is a law: a call of
//! it does nothing.
ghost use Rattle.std.specs.Prelude.{◌≡◌, ℕ, ◌<◌, List, length, All, ◌+◌, ◌≤◌, ◌++◌};
ghost use Rattle.ntp_packet.specs.Header.{HeaderFields, header_length, header_octets, IsHeader};
ghost use Rattle.std.specs.List.{flat_map};
ghost use Rattle.ntp_packet.specs.Field.{Field, field_octets, IsField, AreFields};
ghost use Rattle.ntp_packet.specs.Tail.{TailValue, tail_octets, IsTail};
ghost use Rattle.ntp_packet.specs.Request.{most_datagram_octets, signed_octets, IsRequest, request_of};
ghost use Rattle.ntp_packet.specs.Fields.{fields_of};

/// The spelling of a header has 48 octets.
#[tactic(auto, using(crate::proofs::Readings::length_header_octets))]
pub fn spelling_has_48_octets()
    ensures { (h : HeaderFields) → IsHeader h → length (header_octets h) ≡ header_length }
{}

/// Any 48 octets are the spelling of exactly one header.
pub fn any_48_octets_are_one_header()
    ensures { (octets : List ℕ) → length octets ≡ header_length → All (λ octet. octet < 256) octets
        → (h : HeaderFields) × IsHeader h × (header_octets h ≡ octets)
        × ((other : HeaderFields) → IsHeader other → header_octets other ≡ octets → other ≡ h) }
{}

/// A header, fields and a MAC, one behind another and of at most 1,024 octets, are the request of those.
#[tactic(auto, using(crate::proofs::Composed::composed_mac))]
pub fn parts_with_mac_are_a_request()
    ensures { (header : HeaderFields) (fields : List Field) (tail : TailValue)
        → IsHeader header → All IsField fields → IsTail tail → 20 ≤ length (tail_octets tail)
        → length (signed_octets header fields) + length (tail_octets tail) ≤ most_datagram_octets
        → IsRequest (signed_octets header fields ++ tail_octets tail) (request_of header fields tail) }
{}

/// The same with any tail, where each field begins with more than 24 octets left.
#[tactic(auto, using(crate::proofs::Composed::composed))]
pub fn parts_are_a_request()
    ensures { (header : HeaderFields) (fields : List Field) (tail : TailValue)
        → IsHeader header → AreFields fields (length (tail_octets tail)) → IsTail tail
        → length (signed_octets header fields) + length (tail_octets tail) ≤ most_datagram_octets
        → IsRequest (signed_octets header fields ++ tail_octets tail) (request_of header fields tail) }
{}

/// The octets of fields, one behind another, spell those fields.
#[tactic(auto, using(std::proofs::lemmas::List::Elements::recursion_from_All, crate::proofs::Spelled::fields_of_spelled))]
pub fn fields_are_read_back()
    ensures { (fields : List Field) → All IsField fields → fields_of (flat_map field_octets fields) ≡ fields }
{}
