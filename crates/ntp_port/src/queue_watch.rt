//! What is kept of a queue, to know after which moment its next datagram came.
ghost use Rattle.std.specs.Prelude.{◌≡◌, ℕ, ◌+◌, ◌*◌, ◌/◌, ◌<◌, ◌↔◌, ◌⊎◌, List, [], ◌∷◌, Some, IsTrue, false};
ghost use Rattle.ntp_port.specs.{declared.queue_event.QueueEvent.QueueEvent, Freshness.MayBeAnswered, Freshness.IsInOrder};
ghost use Rattle.ntp_port.specs.Watch.{Watches, Counts, IsWaiting, longest_of, kept_after};

/// Parts of the longest time that a datagram may wait. What is known of the queue is renewed: at an age of one part by a look
/// whether the queue is empty, and at three parts by a count.
const PARTS: u64 = 10;

const PARTS_UNCOUNTED: u64 = 3;

/// What is kept of the history of a queue. `known`: the latest moment after which the next datagram is known to have come.
/// `seen`: the one after `waiting` more takes came after this moment. Moments are in nanoseconds of a clock that never goes back.
#[derive(Clone, Copy, Debug)]
pub struct QueueWatch {
    known: Option<u64>,
    // How many of the datagrams that were in the queue at the moment `seen` may still be in it. 0: none is awaited.
    waiting: u64,
    seen: u64,
    longest: u64,
}

impl QueueWatch {
    /// Watches a queue whose history is empty. A datagram that waited for `longest` nanoseconds, or for longer, may not
    /// be answered.
    pub fn new(longest: u64) -> QueueWatch
        ensures watches { Watches result [] }
        ensures counts { Counts result [] }
        ensures longest { longest_of result ≡ longest }
    {
        QueueWatch {
            known: None,
            waiting: 0,
            seen: 0,
            longest,
        }
    }

    /// A call that began at `at` or later saw the queue, which held at most `count` datagrams. One such look is kept:
    /// while datagrams of an earlier one are awaited, only an empty queue is watched.
    pub fn saw(&mut self, count: u64, at: u64)
        ensures watches { (history : List QueueEvent) → (count ≡ 0) ⊎ (IsWaiting self.old → ⊥) → Watches self.old history
            → Watches self.new (QueueEvent.Held count at ∷ history) }
        ensures counts { (history : List QueueEvent) → Counts self.new (QueueEvent.Held count at ∷ history) }
        ensures waiting { self.new.waiting ≡ count }
        ensures known { count ≡ 0 → self.new.known ≡ Some at }
        ensures longest { longest_of self.new ≡ longest_of self.old }
    {
        if count == 0 {
            self.known = Some(at);
        }
        self.waiting = count;
        self.seen = at;
    }

    /// A datagram was taken out of the queue.
    pub fn took(&mut self)
        ensures watches { (history : List QueueEvent) → (at : ℕ) → Watches self.old history → Watches self.new (QueueEvent.Taken at ∷ history) }
        ensures counts { (history : List QueueEvent) → (at : ℕ) → Counts self.old history → Counts self.new (QueueEvent.Taken at ∷ history) }
        ensures longest { longest_of self.new ≡ longest_of self.old }
    {
        if self.waiting == 1 {
            self.known = Some(self.seen);
        }
        self.waiting = self.waiting.saturating_sub(1);
    }

    /// Whether datagrams that were in the queue when it was looked at may still be in it.
    pub fn is_waiting(&self) -> bool
        ensures { IsTrue result ↔ IsWaiting self.now }
    {
        self.waiting > 0
    }

    /// Whether the datagram that was taken last, and is not watched yet, may be answered; it is in hand at `now`.
    pub fn is_fresh(&self, now: u64) -> bool
        ensures fresh { (history : List QueueEvent) → Watches self.now history → IsTrue result
            → MayBeAnswered (longest_of self.now) history now }
        ensures stale { (history : List QueueEvent) → Watches self.now history → IsInOrder history
            → MayBeAnswered (longest_of self.now) history now → IsTrue result }
    {
        self.is_known_within(now, self.longest)
    }

    /// The moment after which the datagram came that is taken next, as far as it is known.
    pub fn known(&self) -> Option<u64>
        ensures { result ≡ kept_after self.now 0 }
    {
        self.known
    }

    // How many datagrams that were in the queue when it was looked at may still be in it. 0: none is awaited.
    pub(crate) fn waiting(&self) -> u64
        ensures { result ≡ self.now.waiting }
    {
        self.waiting
    }

    // Whether it is time to look whether the queue is empty.
    pub(crate) fn is_due(&self, now: u64) -> bool
        ensures { (result ≡ false) ↔ ((at : ℕ) × (self.now.known ≡ Some at) × (now < at + longest_of self.now / 10)) }
    {
        !self.is_known_within(now, self.longest / PARTS)
    }

    // Whether it is time to count what is in it.
    pub(crate) fn is_old(&self, now: u64) -> bool
        ensures { (result ≡ false) ↔ ((at : ℕ) × (self.now.known ≡ Some at) × (now < at + longest_of self.now / 10 * 3)) }
    {
        !self.is_known_within(now, self.longest / PARTS * PARTS_UNCOUNTED)
    }

    // Whether what comes next came after a moment that is less than `longest` before `now`.
    fn is_known_within(&self, now: u64, longest: u64) -> bool
        ensures { IsTrue result ↔ ((at : ℕ) × (self.now.known ≡ Some at) × (now < at + longest)) }
    {
        match self.known {
            Some(at) => now < at || now - at < longest,
            None => false,
        }
    }
}
