//! The words of the command line.
ghost use Rattle.std.specs.Prelude.{◌≡◌, ◌≢◌, ℕ, List, [], ◌∷◌, map, string_bytes, IfSome, OnSome, IsNone, MatchOption};
ghost use Rattle.labntp_jobs.specs.{Asks.Asks, Behind.AsksToServe, Behind.AsksToLoop, declared.jobs.Serving.Serving};

use crate::jobs::{Job, Serving};
use ntp_admin::words::{decimal, number};
use std::marker::Model;

/// How many turns a server makes at most.
const MOST_TURNS: u32 = 1_000_000;

/// How many turns server and client make at most in one process.
const MOST_LOOPBACK_TURNS: u32 = 1_000;

/// What the words ask for, and nothing where no job has these words.
///
/// ```text
/// replay
/// serve --register FILE --commands FILE --port NUMBER --turns NUMBER
/// loopback --turns NUMBER
/// ```
pub fn job(words: &[String]) -> Option<Job<'_>>
    ensures asked { IfSome result (Asks (map string_bytes words.now)) }
    ensures none { IsNone result → (job : Job) → ¬ Asks (map string_bytes words.now) job }
{
    let mut words = Words { rest: words };
    match words.next()? {
        "replay" => {
            words.end()?;
            Some(Job::Replay)
        }
        "serve" => Some(Job::Serve(serving(words)?)),
        "loopback" => Some(Job::Loopback {
            turns: loopback_turns(words)?,
        }),
        _ => None,
    }
}

// What stands behind `serve`.
fn serving(mut words: Words<'_>) -> Option<Serving<'_>>
    ensures asked { IfSome result (AsksToServe words.entry) }
    ensures none { IsNone result → (serving : Serving) → ¬ AsksToServe words.entry serving }
{
    let register = words.behind("--register")?;
    let commands = words.behind("--commands")?;
    let port = words.behind("--port")?;
    let turns = words.behind("--turns")?;
    words.end()?;
    Some(Serving {
        register,
        commands,
        port: number(port)?,
        turns: decimal(turns, 1, MOST_TURNS)?,
    })
}

// What stands behind `loopback`.
fn loopback_turns(mut words: Words<'_>) -> Option<u32>
    ensures asked { IfSome result (AsksToLoop words.entry) }
    ensures none { IsNone result → (turns : ℕ) → ¬ AsksToLoop words.entry turns }
{
    let turns = words.behind("--turns")?;
    words.end()?;
    decimal(turns, 1, MOST_LOOPBACK_TURNS)
}

// The words that are still to be read.
#[derive(Drop)]
struct Words<'a> {
    rest: &'a [String],
}

impl<'a> Model for Words<'a> {
    ghost use Rattle.std.specs.Prelude.{ℕ, List, map, string_bytes};

    ghost Value = { List (List ℕ) };

    ghost view = { λ w. map string_bytes w.rest.now };
}

impl<'a> Words<'a> {
    // Takes the next word off.
    fn next(&mut self) -> Option<&'a str>
        ensures { MatchOption result ((self.old ≡ []) × (self.new ≡ [])) (λ word. self.old ≡ word.now ∷ self.new) }
    {
        let (first, rest) = self.rest.split_first()?;
        self.rest = rest;
        Some(first.as_str())
    }

    // Takes this name off, and the word behind it.
    fn behind(&mut self, name: &str) -> Option<&'a str>
        ensures some { IfSome result (λ word. self.old ≡ name.now ∷ word.now ∷ self.new) }
        ensures none { IsNone result → (word : List ℕ) (others : List (List ℕ)) → self.old ≢ name.now ∷ word ∷ others }
    {
        if self.next()? == name {
            self.next()
        } else {
            None
        }
    }

    // Ends the words, if none is left.
    fn end(self) -> Option<()>
        ensures some { OnSome result (self.entry ≡ []) }
        ensures none { IsNone result → self.entry ≢ [] }
    {
        if self.rest.is_empty() { Some(()) } else { None }
    }
}
