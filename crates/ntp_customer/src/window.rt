//! The count that is kept.
ghost use Rattle.std.specs.Prelude.{◌≡◌, ℕ, List, [], ◌∷◌, ◌++◌};
ghost use Rattle.ntp_customer.specs.Tally.{capped_count, tally};

use std::marker::Model;

/// Where counting stops, in events: above every budget (profile).
const MOST_COUNTED: u32 = 65_536;

// The window of the newest event, and the count in it, from 1 to `MOST_COUNTED`.
#[derive(Clone, Copy, Debug, PartialEq, Eq)]
struct Counted {
    window: u64,
    count: u32,
}

/// What is kept of events to count them: the window of the newest, and how many of the newest lie in it
/// without a gap, at most 65,536 (profile).
#[derive(Clone, Copy, Debug, Default, PartialEq, Eq)]
pub struct Window {
    newest: Option<Counted>,
}

impl Model for Window {
    ghost use Rattle.ntp_customer.specs.Tally.{Tally, IsTally};

    ghost Value = { Tally };

    ghost view = { λ w. w.newest };

    ghost inverse = { λ t. record { newest = t } };

    ghost invariant = { λ w. IsTally w.newest };
}

impl Window {
    /// What is kept where there were no events.
    #[tactic(auto, using(crate::proofs::Tallies::tallies))]
    pub fn new() -> Self
        ensures { result ≡ tally [] }
    {
        Window { newest: None }
    }

    /// How many of the newest events, without a gap, lie in the window `w`, at most 65,536; this event is
    /// then counted in `w` (profile). A window is 64 seconds long, and `w` is its number since 1900. A clock
    /// that steps back to another window starts a new count.
    #[tactic(auto, using(crate::proofs::Tallies::tallies))]
    pub fn charge(&mut self, w: u64) -> u32
        ensures counted { (windows : List ℕ) → tally windows ≡ self.old → result ≡ capped_count windows w }
        ensures after { (windows : List ℕ) → tally windows ≡ self.old → self.new ≡ tally (windows ++ w ∷ []) }

        // So the two above always speak of some list.
        ensures stands { (windows : List ℕ) × (tally windows ≡ self.old) }
    {
        let before = match self.newest {
            Some(newest) if newest.window == w => newest.count,
            _ => 0,
        };
        self.newest = Some(Counted {
            window: w,
            count: (before + 1).min(MOST_COUNTED),
        });
        before
    }
}
