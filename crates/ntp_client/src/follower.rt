//! A follower of the host's clock daemon.
ghost use Rattle.std.specs.Prelude.{◌≡◌, ◌<◌, option_and_then, option_copied, option_map};
ghost use Rattle.ntp_packet.specs.Request.{RequestValue, IsRequest};
ghost use Rattle.ntp_mac.specs.Signed.{IsSigned};
ghost use Rattle.ntp_client.specs.{Query.query_octets, Sample.IsTimeReply, Watching.is_set_since};
ghost use Rattle.ntp_client.specs.Taking.{taken_for};
ghost use Rattle.ntp_client.specs.InForce.{age, reference_age, root_distance_twice, is_followed, doubt_of, in_force};
ghost use Rattle.ntp_client.specs.Learning.{new_follower, looked, has_to_read_anew, question, asked, root_delay_by, learned_of, took, period};

use crate::doubt::doubt_of;
use crate::{
    Client, ClockAnswer, ClockLimits, ClockWatch, Distrust, Doubt, Outgoing, Reading, Sample,
    Taken, TakenPacket, is_read, state_in_force,
};
use ntp_mac::Key;
use ntp_packet::{ClockFields, Header, Short, Stamp};
use ntp_reply::Reference;
use std::marker::Model;

/// How many units of 2^-32 seconds a unit of 2^-16 seconds has.
const SHORT_UNITS: u128 = 1 << 16;

/// How long after a question the next one is due, in nanoseconds: a second (profile).
const PERIOD: u64 = 1_000_000_000;

/// How long that is where the daemon asked for fewer questions (profile).
const SLOW_PERIOD: u64 = 8 * PERIOD;

/// How long that holds, in nanoseconds: an hour (profile).
const SLOW_FOR: u64 = 3_600 * PERIOD;

/// A follower of the host's clock daemon. Contracts see what it knows: the client that asks the daemon, the
/// limits, how the host's clock was set, the last answer, and when the daemon last asked for fewer questions.
#[derive(Debug, Drop)]
pub struct Follower {
    key: Key,
    number: u16,
    client: Client,
    limits: ClockLimits,
    watch: ClockWatch,
    learned: Option<ClockAnswer>,
    slowed: Option<u64>,
}

impl Model for Follower {
    ghost use Rattle.std.specs.Prelude.{◌≡◌, ◌<◌};
    ghost use Rattle.ntp_client.specs.Learning.{FollowerState};

    ghost Value = { FollowerState };

    ghost view = { λ f. record { client = f.client; limits = f.limits; watch = f.watch; learned = f.learned; slowed = f.slowed } };

    ghost invariant = { λ f. (f.client.key ≡ f.key) × (f.client.number ≡ f.number) × (0 < f.number) };
}

impl Follower {
    /// A follower with the daemon's key and the key's number, 1 to 65,535, that has asked nothing.
    pub fn new(key: Key, number: u16, limits: ClockLimits) -> Follower
        requires number_given { 0 < number }
        ensures { result ≡ new_follower key number limits }
    {
        Follower {
            key,
            number,
            client: Client::new(key, number),
            limits,
            watch: ClockWatch::new(),
            learned: None,
            slowed: None,
        }
    }

    /// Whether the clocks have to be read anew after a reading: it is one, and either it shows that the host's was set since it was
    /// seen, or what was learned rests on a reading from before the host's was last seen to be set (profile).
    pub fn has_to_read_anew(&self, shown: Reading) -> bool
        ensures { result ≡ has_to_read_anew self.now shown }
    {
        is_read(shown.clock)
            && (self.watch.is_set_since(shown)
                || matches!((&self.learned, self.watch.set), (Some(answer), Some(set)) if answer.base.ticks < set.ticks))
    }

    /// Looks whether the host's clock was set, and says it. Where it was, no question waits any longer, and the daemon has to show
    /// an update that lies behind the setting before an answer rests on a new reading (profile).
    pub fn look(&mut self, now: Reading) -> bool
        ensures said { result ≡ is_set_since self.old.watch.seen now }
        ensures looked { self.new ≡ looked self.old now }
        ensures key { self.new.client.key ≡ self.old.client.key }
        ensures number { self.new.client.number ≡ self.old.client.number }
        ensures limits { self.new.limits ≡ self.old.limits }
        ensures learned { self.new.learned ≡ self.old.learned }
        ensures slowed { self.new.slowed ≡ self.old.slowed }
    {
        let is_set = self.watch.is_set_since(now);
        if is_set {
            self.client = Client::new(self.key, self.number);
            self.watch = ClockWatch::after_set(now);
        }
        is_set
    }

    /// The question to the daemon that departs at a reading of the host's clocks, after a look at them: a basic request, so that
    /// its answer gives a sample of this exchange. It takes the place of one that still waits for its answer (profile).
    #[must_use]
    pub fn request(&mut self, now: Reading) -> Outgoing
        ensures octets { result ≡ query_octets self.old.client.key self.old.client.number (question now) }
        ensures asked { self.new ≡ asked self.old now }
    {
        let _was_set = self.look(now);
        let mut client = Client::new(self.key, self.number);
        let outgoing = client.request(now.clock);
        self.client = client;
        self.watch.seen = Some(now);
        outgoing
    }

    /// What octets are taken for that came at a reading of the host's clocks, as by `Client::take` after a look at these clocks: so
    /// an answer is refused where the host's clock was set since its question left. A sample is learned, with the state that the same
    /// octets tell; an authentic reply of an unsynchronised clock leaves nothing learned; all else changes nothing that is learned
    /// (profile).
    pub fn take(&mut self, octets: &[u8], now: Reading) -> Taken
        ensures taken { result ≡ taken_for (looked self.old now).client octets.now now.clock }
        ensures took { self.new ≡ took (looked self.old now) octets.now now result }
        ensures forged { ((reply : RequestValue) → IsRequest octets.now reply → ¬ IsSigned self.old.client.key self.old.client.number reply)
            → self.new.learned ≡ self.old.learned }
    {
        let _is_set = self.look(now);
        let TakenPacket { taken, header } = self.client.take_packet(octets, now.clock);
        match taken {
            Taken::Sample(sample) => {
                let header = header.unwrap();
                self.learned = self.learned_of(&header, sample);
                self.watch.told = Some(header.reference());
            }
            Taken::Refused(Distrust::Unsynchronised) => {
                self.learned = None;
                self.watch.told = Some(Stamp(0));
            }
            Taken::Rate => self.slowed = Some(now.ticks),
            Taken::Deny | Taken::Nak | Taken::Refused(_) => {}
        }
        taken
    }

    // What is learned of a time reply to the last question, with this header. It rests on that question's reading, where it shows an update,
    // else on what the last answer does.
    fn learned_of(&self, header: &Header, sample: Sample) -> Option<ClockAnswer>
        ensures { IsTimeReply header.now → result ≡ learned_of self.now.watch self.now.learned header.now sample }
    {
        let question = self.watch.seen?;
        let (reference, sent) = (header.reference(), header.transmit());
        let is_update = self.watch.shows_update(reference, sent);
        let last = self.learned.map(|answer| answer.base);
        let base = is_update.then_some(question).or(last)?;
        let fields = ClockFields {
            root_delay: root_delay_by(header, sample),
            ..header.clock()
        };
        Some(ClockAnswer {
            state: Reference::of(fields).ok()?,
            offset_twice: sample.offset_twice(),
            sent,
            ticks: question.ticks,
            base,
        })
    }

    /// How long after a question the next one is due when the monotonic clock shows `ticks`, in nanoseconds: a second, and eight for an
    /// hour after a RATE (RFC 5905, 7.4; profile).
    pub fn period(&self, ticks: u64) -> u64
        ensures { result ≡ period self.now.slowed ticks }
    {
        match self.slowed {
            Some(slowed) if ticks.saturating_sub(slowed) < SLOW_FOR => SLOW_PERIOD,
            _ => PERIOD,
        }
    }

    /// The reference state that replies tell, as `state_in_force` says.
    #[must_use]
    pub fn in_force(&self, now: Reading) -> Reference
        ensures { result ≡ in_force self.now.limits self.now.learned now }
    {
        state_in_force(&self.limits, self.learned.as_ref(), now)
    }

    /// Whether an answer was learned and is believed, so that the state in force is that answer's.
    pub fn is_followed(&self, now: Reading) -> bool
        ensures { result ≡ is_followed self.now.limits self.now.learned now }
    {
        self.learned.is_some() && self.doubt(now).is_none()
    }

    /// Why the last answer is not believed, if there is one and it is not: the first reason that applies.
    pub fn doubt(&self, now: Reading) -> Option<Doubt>
        ensures { result ≡ option_and_then (λ answer. doubt_of self.now.limits answer now) self.now.learned }
    {
        doubt_of(&self.limits, self.learned.as_ref()?, now)
    }

    /// The last answer that was learned.
    pub fn learned(&self) -> Option<&ClockAnswer>
        ensures { option_copied result ≡ self.now.learned }
    {
        self.learned.as_ref()
    }

    /// How long ago the question of that answer left, in nanoseconds.
    pub fn age(&self, ticks: u64) -> Option<u64>
        ensures { result ≡ option_map (λ answer. age answer ticks) self.now.learned }
    {
        self.learned.map(|answer| answer.age(ticks))
    }

    /// How long ago the daemon's clock was set, by that answer and the host's clock, in units of 2^-32 seconds.
    pub fn reference_age(&self, now: Reading) -> Option<i64>
        ensures { result ≡ option_map (λ answer. reference_age answer now) self.now.learned }
    {
        self.learned.map(|answer| answer.reference_age(now))
    }

    /// Twice the root distance of that answer by now, in units of 2^-16 seconds.
    pub fn root_distance_twice(&self, now: Reading) -> Option<u64>
        ensures { result ≡ option_map (λ answer. root_distance_twice answer now) self.now.learned }
    {
        self.learned.map(|answer| answer.root_distance_twice(now))
    }

    /// The limits within which an answer is believed.
    pub fn limits(&self) -> ClockLimits
        ensures { result ≡ self.now.limits }
    {
        self.limits
    }
}

// The root delay by way of a time reply: the one that it tells, and the delay of the exchange.
fn root_delay_by(header: &Header, sample: Sample) -> Short
    ensures { result ≡ root_delay_by header.now sample }
{
    let delay = sample.delay().unsigned_abs().div_ceil(SHORT_UNITS);
    let sum = u128::from(header.root_delay().0) + delay;
    Short(sum.min(u128::from(u32::MAX)) as u32)
}
