//! The state of the clock, from the configuration or from the host's clock daemon.
ghost use Rattle.std.specs.Prelude.{◌≡◌, true, false, IsSome};
ghost use Rattle.ntp_client.specs.Learning.{looked, has_to_read_anew};
ghost use Rattle.ntp_host.specs.Following.{Follows, AsksFollowed, AsksClock, TendsClock};

use crate::ClockWire;
use ntp_client::{
    Distrust, Follower, Reading, Taken, is_read, reference_unsynchronised, reference_where_read,
};
use ntp_packet::Moment;
use ntp_port::ReferenceSource;
use ntp_reply::Reference;

/// How many nanoseconds an answer is looked for in each turn, and ends a wait: 20 thousandths of a second.
const PATIENCE: u64 = 20_000_000;

/// How many nanoseconds pass later between two looks for it: a hundredth of a second.
const LATER_PERIOD: u64 = 10_000_000;

const MOST_ANSWERS: usize = 8;

/// How many nanoseconds the reading of both clocks may take: a hundred-thousandth of a second.
const LONGEST_READING: u64 = 10_000;

const MOST_READINGS: usize = 8;

/// The host's clock daemon, which is asked for the state of its clock once a second (RFC 5905, 7.3) by a socket that never waits.
/// An answer is looked for in each turn, and ends a wait for datagrams; after `PATIENCE` it is looked for each `LATER_PERIOD`.
#[derive(Drop)]
pub struct FollowedClock<W: ClockWire> {
    wire: W,
    /// What was learned of the daemon.
    pub follower: Follower,
    // When the daemon was asked last, if it was since the host's clock was set.
    asked: Option<u64>,
    is_outstanding: bool,
    // When an answer was looked for last.
    looked: u64,
    /// Whether the daemon's last answer said that its clock is synchronised, where one came.
    pub is_synchronised: Option<bool>,
}

impl<W: ClockWire> FollowedClock<W> {
    /// A daemon that was not asked yet.
    pub fn new(wire: W, follower: Follower) -> FollowedClock<W>
        ensures wire { result.wire ≡ wire }
        ensures follower { result.follower ≡ follower }
    {
        FollowedClock {
            wire,
            follower,
            asked: None,
            is_outstanding: false,
            looked: 0,
            is_synchronised: None,
        }
    }

    fn in_force(&mut self, receipt: Option<Moment>) -> Reference
        ensures { AsksFollowed self.old.follower self.new.follower (W.clock_told self.old.wire) (W.clock_told self.new.wire) receipt result }
    {
        let ticks = self.wire.last_ticks();
        let Some(clock) = receipt else {
            self.exchange(ticks);
            return reference_unsynchronised();
        };
        // The ticks were read just after the receipt, and before anything that the exchange does.
        let now = self.glance(Reading { clock, ticks });
        self.exchange(ticks);
        self.follower.in_force(now)
    }

    // Looks whether the host's clock was set, where a reading shows it. Then both clocks are read anew, and that reading is used:
    // the process may have been held up within the first, which then shows too little of the setting.
    fn glance(&mut self, shown: Reading) -> Reading
        ensures follows { Follows self.old.follower self.new.follower (W.clock_told self.old.wire) (W.clock_told self.new.wire) }
        ensures kept { has_to_read_anew self.old.follower shown ≡ false → result ≡ shown }
    {
        if self.follower.has_to_read_anew(shown)
            && let Some(now) = reading(&mut self.wire)
        {
            self.look(now);
            return now;
        }
        shown
    }

    // Looks whether the host's clock was set. Where it was, no answer is waited for, and the daemon is asked again at once.
    fn look(&mut self, now: Reading)
        ensures follower { self.new.follower ≡ looked self.old.follower now }
        ensures told { W.clock_told self.new.wire ≡ W.clock_told self.old.wire }
    {
        if self.follower.look(now) {
            self.asked = None;
            self.expect(false);
        }
    }

    fn expect(&mut self, is_outstanding: bool)
        ensures follower { self.new.follower ≡ self.old.follower }
        ensures told { W.clock_told self.new.wire ≡ W.clock_told self.old.wire }
    {
        self.is_outstanding = is_outstanding;
        self.wire.expect(is_outstanding);
    }

    // Asks where it is time to. Else takes what has come, where an answer is waited for and it is time to look for it.
    fn exchange(&mut self, ticks: u64)
        ensures { Follows self.old.follower self.new.follower (W.clock_told self.old.wire) (W.clock_told self.new.wire) }
    {
        let since = match self.asked.map(|asked| ticks.saturating_sub(asked)) {
            Some(since) if since < self.follower.period(ticks) => since,
            _ => return self.ask(ticks),
        };
        let is_due = since < PATIENCE || ticks.saturating_sub(self.looked) >= LATER_PERIOD;
        if self.is_outstanding && is_due {
            self.looked = ticks;
            self.take_answers();
            if self.is_outstanding && since >= PATIENCE {
                self.wire.expect(false);
            }
        }
    }

    // Sends a question. One that cannot be sent is sent again when the next one is due.
    fn ask(&mut self, ticks: u64)
        ensures { Follows self.old.follower self.new.follower (W.clock_told self.old.wire) (W.clock_told self.new.wire) }
    {
        // What came too late for the last question is taken before it is given up.
        self.take_answers();
        self.asked = Some(ticks);
        self.expect(false);
        if let Some(now) = reading(&mut self.wire) {
            let request = self.follower.request(now);
            let is_sent = self.wire.send(request.octets());
            self.expect(is_sent);
        }
    }

    // Takes what has come, until an answer is among it.
    fn take_answers(&mut self)
        ensures { Follows self.old.follower self.new.follower (W.clock_told self.old.wire) (W.clock_told self.new.wire) }
    {
        let mut octets = [0; 256];
        for _ in 0..MOST_ANSWERS {
            let Some(length) = self.wire.receive(&mut octets) else {
                return;
            };
            let Some(now) = reading(&mut self.wire) else {
                return;
            };
            self.look(now);
            match self.follower.take(&octets[..length], now) {
                Taken::Sample(_) => self.is_synchronised = Some(true),
                Taken::Refused(Distrust::Unsynchronised) => self.is_synchronised = Some(false),
                Taken::Rate => {}
                _ => continue,
            }
            return self.expect(false);
        }
    }
}

// What both clocks show together: the quickest of a few readings, since the process may be held up within one.
fn reading<W: ClockWire>(wire: &mut W) -> Option<Reading>
    ensures told { W.clock_told wire.new ≡ W.clock_told wire.old }
    ensures read { (W.clock_told wire.old).reads ≡ true → IsSome result }
{
    let mut best: Option<(Reading, u64)> = None;
    for _reading in 0..MOST_READINGS {
        if best.is_some_and(|best| best.1 <= LONGEST_READING) {
            break;
        }
        let before = wire.ticks();
        let clock = wire.clock();
        let took = wire.ticks().saturating_sub(before);
        let ticks = before.saturating_add(took / 2);
        if best.is_none_or(|best| took < best.1) {
            best = Some((Reading { clock, ticks }, took));
        }
    }
    best.map(|it| it.0).filter(|it| is_read(it.clock))
}

/// Where the state of the clock comes from: the configuration, for ever, or the host's clock daemon.
#[derive(Drop)]
pub enum ClockSource<W: ClockWire> {
    Fixed(Reference),
    Followed(FollowedClock<W>),
}

impl<W: ClockWire> ClockSource<W> {
    /// The state of the clock by a reading of the host's clocks.
    pub fn state(&self, now: Reading) -> Reference {
        let state = match self {
            ClockSource::Fixed(reference) => *reference,
            ClockSource::Followed(followed) => followed.follower.in_force(now),
        };
        reference_where_read(Some(now.clock), state)
    }
}

impl<W: ClockWire> ReferenceSource for ClockSource<W> {
    ghost asked = { AsksClock W.clock_told };

    ghost tended = { TendsClock W.clock_told };

    /// The state that replies tell: of a turn whose clock could not be read, that of an unsynchronised one.
    fn in_force(&mut self, receipt: Option<Moment>) -> Reference {
        let state = match self {
            ClockSource::Fixed(reference) => *reference,
            ClockSource::Followed(followed) => followed.in_force(receipt),
        };
        reference_where_read(receipt, state)
    }

    fn tend(&mut self) {
        if let ClockSource::Followed(followed) = self {
            let ticks = followed.wire.ticks();
            let clock = followed.wire.clock();
            followed.glance(Reading { clock, ticks });
            followed.exchange(ticks);
        }
    }
}
