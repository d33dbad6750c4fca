//! A text from outside, told in a line.

use std::fmt;

/// A text as lines tell it that comes from a file or from the command line, as a key or a path. It may have any character, so one that
/// could end the line or steer a terminal stands as `\u{..}`: each but printable ASCII. The empty text is `""`.
#[derive(Clone, Copy)]
pub struct Escaped<'a>(pub &'a str);

impl<'a> fmt::Display for Escaped<'a> {
    fn fmt<W: fmt::Write>(&self, f: &mut fmt::Formatter<W>) -> fmt::Result {
        if self.0.is_empty() {
            return f.write_str("\"\"");
        }
        // What has nothing to be escaped stays in one piece.
        if self.0.chars().all(|character| is_printable(character)) {
            return f.write_str(self.0);
        }
        for character in self.0.chars() {
            if is_printable(character) {
                f.write_char(character)?;
            } else {
                write!(f, "\\u{{{:x}}}", u32::from(character))?;
            }
        }
        Ok(())
    }
}

// Whether a character is printable ASCII.
fn is_printable(character: char) -> bool {
    matches!(character, ' '..='~')
}
