//! What holds of the definitions, whatever code meets them. Each function is a law: a call of it does
//! nothing.
ghost use Rattle.std.specs.Prelude.{◌≡◌, ◌↔◌, ℕ, ◌<◌, List, All, Ok, Err};
ghost use Rattle.ntp_packet.specs.{Request.RequestValue, Request.IsRequest, Faults.Fails, declared.malformed.Malformed.Malformed};
ghost use Rattle.ntp_mac.specs.Reading.{reading_of};

/// Octets are what they are read as, and nothing else: a request, or what has this fault.
pub fn octets_are_what_they_are_read_as()
    ensures request { (octets : List ℕ) (request : RequestValue) → All (λ octet. octet < 256) octets
        → (reading_of octets ≡ Ok request) ↔ IsRequest octets request }
    ensures fault { (octets : List ℕ) (fault : Malformed) → All (λ octet. octet < 256) octets
        → (reading_of octets ≡ Err fault) ↔ Fails octets fault }
{}
