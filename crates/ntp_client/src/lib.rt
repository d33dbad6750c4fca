//! A client of an NTP server that signs its replies (RFC 5905, 8; RFC 9769, 2): it makes requests, and takes a sample only
//! from an authentic reply to them.
//!
//! A follower asks the host's clock daemon so, for the reference state that replies tell. It believes the daemon's last
//! authentic answer while that is young and within limits, and the host's clock was not set since the daemon showed that it has
//! updated its own. Neither opens a socket, reads a clock or takes memory.
#![tactic(auto)]

mod answer;
mod client;
mod doubt;
mod exchange;
mod follower;
mod judging;
mod laws;
mod limits;
mod pairing;
mod query;
mod reading;
mod sample;
mod state;
mod taken;
mod watch;

pub use answer::ClockAnswer;
pub use client::{Client, Outgoing};
pub use doubt::Doubt;
pub use follower::Follower;
pub use laws::a_sample_is_an_authentic_answer;
pub use limits::ClockLimits;
pub use reading::Reading;
pub use sample::Sample;
pub use state::{is_read, reference_unsynchronised, reference_where_read, state_in_force};
pub use taken::{Distrust, Taken, TakenPacket};
pub use watch::ClockWatch;
