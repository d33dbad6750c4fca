//! What `labntp` does: the words of its command line and the job that they ask for; a replay of a script, and what it ends with; and a
//! server and a client that meet. Laws say what the client takes the server's answer to its own request for, where that comes unchanged.
#![tactic(auto)]

mod engine;
mod jobs;
mod laws;
mod meeting;
mod replaying;
mod watch;
mod words;

pub use jobs::{Job, Serving};
pub use laws::{
    a_request_is_a_signed_query, a_time_reply_is_a_sample,
    other_replies_are_taken_for_what_they_are, the_next_request_asks_about_the_exchange,
};
pub use meeting::{LoopbackFault, meet};
pub use replaying::{ReplayFault, ReplayFaultKind, replay, replay_status};
pub use watch::Watched;
pub use words::job;
