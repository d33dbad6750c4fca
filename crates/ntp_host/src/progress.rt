//! How far a file of lines is read.
ghost use Rattle.std.specs.Prelude.{◌≡◌, ◌↔◌, ◌+◌, ◌-◌, ◌≤◌, ◌<◌, ℕ, List, min, take, length, slice_index};

/// The most octets that are read of a commands file: 64 MiB (profile).
pub const MOST_COMMANDS_OCTETS: u64 = 67_108_864;

pub(crate) const MOST_PIECE_OCTETS: u64 = 65_536;

/// How far a file of lines is read. Where a full piece behind the given lines has no line's end, those behind are searched for it.
#[derive(Clone, Copy)]
pub(crate) struct Progress {
    /// The octets that the lines have that were given.
    pub given: u64,
    // The octets of the file, from its beginning on, that were searched for the end of the next line.
    searched: u64,
    ghost ordered: { given ≤ searched },
    ghost limited: { searched ≤ 67108864 },
}

impl Progress {
    ghost use Rattle.ntp_host.specs.Looking.{next_from, StandsAt, HasNoEnd, GivesPart, GivesEach};

    pub(crate) fn new() -> Progress
        ensures given { result.given ≡ 0 }
        ensures knows { (file : List ℕ) → HasNoEnd file result.given result.searched }
    {
        Progress {
            given: 0,
            searched: 0,
        }
    }

    /// Returns how many octets stand in front of the next piece.
    pub(crate) fn next_from(&self) -> u64
        ensures { result ≡ next_from self.now }
    {
        match self.searched - self.given >= MOST_PIECE_OCTETS {
            true => self.searched,
            false => self.given,
        }
    }

    /// Returns how many octets the next piece has, of a file with `length` octets; 0 where nothing is to be read.
    pub(crate) fn next_count(&self, length: u64) -> usize
        ensures limited { next_from self.now + result ≤ MOST_COMMANDS_OCTETS }
        ensures most { result ≤ 65536 }
        ensures none { result ≡ 0 ↔ (min length MOST_COMMANDS_OCTETS ≤ self.now.searched) }
        ensures reach { 0 < result → result ≡ min (min length MOST_COMMANDS_OCTETS - next_from self.now) 65536 }
    {
        let end = length.min(MOST_COMMANDS_OCTETS);
        if end <= self.searched {
            return 0;
        }
        (end - self.next_from()).min(MOST_PIECE_OCTETS) as usize
    }

    /// Returns how far it is read behind the next piece, which has these octets.
    pub(crate) fn behind(&self, octets: &[u8]) -> Progress
        requires limited { next_from self.now + length octets.now ≤ MOST_COMMANDS_OCTETS }
        requires most { length octets.now ≤ 65536 }
        ensures ordered { self.now.given ≤ result.given }
        ensures knows { (file : List ℕ) → HasNoEnd file self.now.given self.now.searched
            → StandsAt file (next_from self.now) octets.now → HasNoEnd file result.given result.searched }
        ensures short { result.given ≤ self.now.given + 65536 → (file : List ℕ) → StandsAt file (next_from self.now) octets.now
            → GivesPart file self.now.given result.given (take (result.given - self.now.given) octets.now) }
        ensures long { self.now.given + 65536 < result.given → (file : List ℕ) → HasNoEnd file self.now.given self.now.searched
            → StandsAt file (next_from self.now) octets.now
            → HasNoEnd file self.now.given (result.given - 1) × (slice_index file (result.given - 1) ≡ 10) }
        ensures each { (file : List ℕ) (end : ℕ) → HasNoEnd file self.now.given self.now.searched
            → StandsAt file (next_from self.now) octets.now → 0 < length octets.now
            → length octets.now ≡ min (end - next_from self.now) 65536 → GivesEach file end self.now result }
    {
        let (from, mut count) = (self.next_from(), octets.len());
        let searched = from + count as u64;
        if from > self.given {
            let Some(at) = octets.iter().position(|octet| *octet == b'\n') else {
                let given = self.given;
                return Progress { given, searched };
            };
            let given = from + at as u64 + 1;
            let searched = given;
            return Progress { given, searched };
        }
        while count > 0 && octets[count - 1] != b'\n' {
            count -= 1;
        }
        let given = from + count as u64;
        Progress { given, searched }
    }
}
