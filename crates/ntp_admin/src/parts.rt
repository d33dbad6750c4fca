//! The parts of a text, from the left.
ghost use Rattle.std.specs.Prelude.{◌≡◌, ◌≢◌, ◌<◌, [], ◌∷◌, OnOk, IfErr, MatchOption, MatchResult};
ghost use Rattle.ntp_admin.specs.Words.{parts};

use ntp_service::LineFault;
use std::marker::Model;

/// The parts of a text that are still to be read, where the parts stand between separators.
#[derive(Drop)]
pub(crate) struct TextParts<'a> {
    separator: char,
    // What follows the last separator that was passed; nothing once the last part was read.
    rest: Option<&'a str>,
}

impl<'a> Model for TextParts<'a> {
    ghost use Rattle.std.specs.Prelude.{ℕ, ◌<◌, List, []};
    ghost use Rattle.std.specs.Option.{option_map_or};
    ghost use Rattle.ntp_admin.specs.Words.{parts};

    ghost Value = { List (List ℕ) };

    ghost view = { λ p. option_map_or (λ rest. parts p.separator rest.now) p.rest [] };

    ghost invariant = { λ p. p.separator < 128 };
}

impl<'a> TextParts<'a> {
    /// The parts of a text between separators, which are an ASCII character.
    pub(crate) fn new(text: &'a str, separator: char) -> TextParts<'a>
        requires { separator < 128 }
        ensures { result ≡ parts separator text.now }
    {
        TextParts {
            separator,
            rest: Some(text),
        }
    }

    /// Takes the next part off.
    pub(crate) fn next(&mut self) -> Option<&'a str>
        ensures { MatchOption result ((self.old ≡ []) × (self.new ≡ [])) (λ part. self.old ≡ part.now ∷ self.new) }
    {
        let rest = self.rest?;
        let Some((part, others)) = rest.split_once(self.separator) else {
            self.rest = None;
            return Some(rest);
        };
        self.rest = Some(others);
        Some(part)
    }

    /// Takes the next word off. `Count` where none is left.
    pub(crate) fn word(&mut self) -> Result<&'a str, LineFault>
        ensures { MatchResult result (λ word. self.old ≡ word.now ∷ self.new) (λ fault. (self.old ≡ []) × (fault ≡ LineFault.Count)) }
    {
        self.next().ok_or(LineFault::Count)
    }

    /// Ends the words. `Count` where one is left.
    pub(crate) fn end(mut self) -> Result<(), LineFault>
        ensures ok { OnOk result (self.entry ≡ []) }
        ensures fault { IfErr result (λ fault. (self.entry ≢ []) × (fault ≡ LineFault.Count)) }
    {
        match self.next() {
            None => Ok(()),
            Some(_) => Err(LineFault::Count),
        }
    }
}
