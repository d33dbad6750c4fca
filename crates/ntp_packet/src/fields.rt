//! The extension fields of a request, one by one.
ghost use Rattle.std.specs.Prelude.{◌≡◌, ◌≤◌, length};
ghost use Rattle.std.specs.Iterator.{YieldsFirstBy, item_count};
ghost use Rattle.ntp_packet.specs.Field.{written_kind as kind_of, written_length as length_of};
ghost use Rattle.ntp_packet.specs.Fields.{fields_of, SpellFields, field_seen};

use std::marker::Model;

/// The extension fields that are still to come, in the order of the datagram (RFC 7822, 3). Each is
/// given as its kind and its value, padding included, which is lent from the datagram.
#[derive(Debug, Drop)]
pub struct Fields<'a> {
    octets: &'a [u8],
}

impl<'a> Model for Fields<'a> {
    ghost use Rattle.std.specs.Prelude.{List};
    ghost use Rattle.ntp_packet.specs.{Field.Field, Fields.fields_of, Fields.SpellFields};

    ghost Value = { List Field };

    ghost view = { λ f. fields_of f.octets.now };

    ghost invariant = { λ f. SpellFields f.octets.now };
}

impl<'a> Fields<'a> {
    // The fields that the octets spell.
    pub(crate) fn new(octets: &'a [u8]) -> Fields<'a>
        requires { SpellFields octets.now }
        ensures { result ≡ fields_of octets.entry.now }
    {
        Fields { octets }
    }
}

impl<'a> Iterator for Fields<'a> {
    type Item = (u16, &'a [u8]);

    ghost next_gives = { YieldsFirstBy field_seen (λ fields. fields) };

    ghost remaining = { item_count (λ fields. fields) };

    fn next(&mut self) -> Option<(u16, &'a [u8])> {
        let octets = self.octets;
        if octets.is_empty() {
            return None;
        }
        let kind = written_kind(octets);
        let (field, others) = octets.split_at(usize::from(written_length(octets)));
        self.octets = others;
        Some((kind, &field[4..]))
    }
}

// The kind at the front of a field's octets.
#[tactic(auto, using(crate::proofs::Octets::parts), unfolding(crate::specs::Field::written_kind))]
fn written_kind(octets: &[u8]) -> u16
    requires { 4 ≤ length octets.now }
    ensures { result ≡ kind_of octets.now }
{
    u16::from_be_bytes([octets[0], octets[1]])
}

// The length behind the kind. It counts the whole field.
#[tactic(auto, using(crate::proofs::Octets::parts), unfolding(crate::specs::Field::written_length))]
pub(crate) fn written_length(octets: &[u8]) -> u16
    requires { 4 ≤ length octets.now }
    ensures { result ≡ length_of octets.now }
{
    u16::from_be_bytes([octets[2], octets[3]])
}
