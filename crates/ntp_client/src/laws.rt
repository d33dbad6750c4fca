//! What holds of the definitions, whatever code meets them. Each function is a law: a call of it does
//! nothing.
ghost use Rattle.std.specs.Prelude.{◌≡◌, ◌↔◌, ℕ, ◌<◌, List, All};
ghost use Rattle.ntp_packet.specs.declared.moment.Moment.{Moment};
ghost use Rattle.ntp_client.specs.{State.ClientState, State.IsClient, Sample.IsSample, Taking.taken_for};

use crate::{Sample, Taken};

/// A client takes octets for a sample exactly where they are an authentic reply of a synchronised clock to
/// its request, and for the very sample that the reply tells (RFC 5905, 8; RFC 9769, 2; profile).
pub fn a_sample_is_an_authentic_answer()
    ensures { (c : ClientState) (octets : List ℕ) (at : Moment) (s : Sample) → IsClient c → All (λ octet. octet < 256) octets
        → (taken_for c octets at ≡ Taken.Sample s) ↔ IsSample c octets at s }
{}
