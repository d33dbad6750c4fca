//! How many lines of a kind may be written.
ghost use Rattle.std.specs.Prelude.{◌≡◌, ◌↔◌, ℕ, false, List, [], ◌∷◌};
ghost use Rattle.ntp_reports.specs.Allowing.{ask_answer, IsLeftBy};

/// How many lines of a kind are written in a minute.
pub const MOST_LINES: u64 = 10;

/// Whether a line may be written.
#[derive(Clone, Copy, Debug, PartialEq, Eq)]
pub enum Ask {
    /// It may.
    Say,
    /// It may not: enough were written in this minute.
    Hold,
    /// It may; the number counts the lines held in the last minute in which a line was asked for.
    SayWithMore(u64),
}

/// What may still be written of one kind of line.
#[derive(Clone, Copy, Debug, PartialEq, Eq)]
pub struct LineAllowance {
    // The minute of the last ask.
    minute: u64,
    // How many lines were asked for in it.
    asked: u64,
}

impl LineAllowance {
    /// An unused allowance.
    pub fn new() -> LineAllowance
        ensures { IsLeftBy [] result }
    {
        LineAllowance {
            minute: 0,
            asked: 0,
        }
    }

    /// Whether a line that is asked for in a minute may be written: so it is seen without asking, and nothing counts as held.
    pub fn has_room(&self, minute: u64) -> bool
        ensures { (asks : List ℕ) → IsLeftBy asks self.now → (result ≡ false) ↔ (ask_answer asks minute ≡ Ask.Hold) }
    {
        minute != self.minute || self.asked < MOST_LINES
    }

    /// Whether a line may be written in a minute. The first ten of a minute may. The first one of a minute also tells how
    /// many were held before. A minute is a new one where it differs from that of the last ask.
    pub fn ask(&mut self, minute: u64) -> Ask
        ensures answer { (asks : List ℕ) → IsLeftBy asks self.old → result ≡ ask_answer asks minute }
        ensures left { (asks : List ℕ) → IsLeftBy asks self.old → IsLeftBy (minute ∷ asks) self.new }
    {
        let (last, asked) = (self.minute, self.asked);
        if minute != last {
            *self = LineAllowance { minute, asked: 1 };
            return match asked.saturating_sub(MOST_LINES) {
                0 => Ask::Say,
                held => Ask::SayWithMore(held),
            };
        }
        self.asked = asked.saturating_add(1);
        if asked < MOST_LINES {
            Ask::Say
        } else {
            Ask::Hold
        }
    }
}
