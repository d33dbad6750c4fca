//! The text that a file holds.
ghost use Rattle.std.specs.Prelude.{◌≡◌, IfSome, IfNone};
ghost use Rattle.ntp_admin.specs.FileText.{IsText};

/// How many octets a register file, and a commands file, have at most.
pub const MOST_FILE_OCTETS: usize = 1_048_576;

/// The text of a file that has these octets, where they are not too many and are UTF-8. It takes no memory.
pub(crate) fn text_of(octets: &[u8]) -> Option<&str>
    ensures text { IfSome result (λ text. IsText octets.now × (text.now ≡ octets.now)) }
    ensures none { IfNone result (¬ IsText octets.now) }
{
    if octets.len() > MOST_FILE_OCTETS {
        return None;
    }
    str::from_utf8(octets).ok()
}

/// The number of the first line, counted from 1, that is no UTF-8; that of the last one where all are.
pub fn line_without_text(octets: &[u8]) -> u64 {
    let fault = str::from_utf8(octets).err();
    let valid = fault.map_or(octets.len(), |fault| fault.valid_up_to());
    let line_feeds = octets.iter().take(valid).filter(|octet| **octet == b'\n');
    line_feeds.count() as u64 + 1
}
