//! Why a command is refused.
ghost use Rattle.std.specs.Prelude.{◌≡◌};
ghost use Rattle.ntp_service.specs.Vocabulary.{refusal_word};

use ntp_customer::NoMemory;

/// Why a command was refused. Each command says in which order it looks for its causes.
#[derive(Clone, Copy, Debug, PartialEq, Eq)]
pub enum Refusal {
    /// The address is enrolled.
    AlreadyEnrolled,
    /// Another enrolled address holds the key number.
    KeyTaken,
    /// Memory was wanted, and a growth was refused.
    NoMemory,
    /// The address is not enrolled.
    NotEnrolled,
    /// The address holds this key number already.
    SameNumber,
    /// The address holds as many keys as it can.
    RoomFull,
    /// It is the only key of the address.
    OnlyKey,
    /// The address does not hold this key number.
    NotHeld,
}

impl Refusal {
    /// The word for it. It takes no memory.
    pub fn word(self) -> &'static str
        ensures { result.now ≡ refusal_word self }
    {
        match self {
            Refusal::AlreadyEnrolled => "already-enrolled",
            Refusal::KeyTaken => "key-taken",
            Refusal::NoMemory => "no-memory",
            Refusal::NotEnrolled => "not-enrolled",
            Refusal::SameNumber => "same-number",
            Refusal::RoomFull => "room-full",
            Refusal::OnlyKey => "only-key",
            Refusal::NotHeld => "not-held",
        }
    }
}

impl From<NoMemory> for Refusal {
    ghost use Rattle.ntp_service.specs.declared.refusal.Refusal.TheVariants.{NoMemory};

    ghost from_gives = { λ _ e. e ≡ NoMemory };

    fn from(_e: NoMemory) -> Refusal {
        Refusal::NoMemory
    }
}
