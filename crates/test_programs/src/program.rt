//! What the first word of the command line says.

use std::env::Env;

/// Which program is asked for.
#[derive(Clone, Copy)]
pub(crate) enum Program {
    Host,
    Loading,
    Examples,
    All,
}

impl Program {
    /// The one that the first word names, if it names any. It is read without memory, which `loading` is refused.
    pub(crate) fn asked_for<R: Env>(rt: &R) -> Option<Program> {
        let mut room = [0; 16];
        let length = rt.arg(1, &mut room).ok()?;
        let word = str::from_utf8(room.get(..length)?).ok()?;
        Program::named(word)
    }

    // The one with this name.
    fn named(word: &str) -> Option<Program> {
        match word {
            "host" => Some(Program::Host),
            "loading" => Some(Program::Loading),
            "examples" => Some(Program::Examples),
            "all" => Some(Program::All),
            _ => None,
        }
    }
}
