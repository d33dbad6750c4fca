//! Whether a call answered as it has to.

/// What a call did.
#[derive(Clone, Copy, Debug, PartialEq, Eq)]
pub(crate) enum Judged {
    /// It gave what it has to.
    Right,
    /// It told that memory was wanted.
    Memory,
    /// It answered anything else.
    Wrong,
}

impl Judged {
    /// What a call did that gave this answer.
    pub(crate) fn of(is_right: bool, is_memory: bool) -> Judged {
        if is_right {
            Judged::Right
        } else if is_memory {
            Judged::Memory
        } else {
            Judged::Wrong
        }
    }

    /// The worse of the two.
    pub(crate) fn worse(self, other: Judged) -> Judged {
        match (self, other) {
            (Judged::Wrong, _) | (_, Judged::Wrong) => Judged::Wrong,
            (Judged::Memory, _) | (_, Judged::Memory) => Judged::Memory,
            (Judged::Right, Judged::Right) => Judged::Right,
        }
    }

    /// The word for it.
    pub(crate) fn word(self) -> &'static str {
        match self {
            Judged::Right => "right",
            Judged::Memory => "memory",
            Judged::Wrong => "wrong",
        }
    }
}
