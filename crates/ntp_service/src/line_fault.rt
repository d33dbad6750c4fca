//! What is wrong with a line of a script, or of a commands file.
ghost use Rattle.std.specs.Prelude.{◌≡◌};
ghost use Rattle.ntp_service.specs.Vocabulary.{line_fault_word};

/// The first thing that is wrong with a line: its first word, else how many words there are, else the words from
/// left to right. The numbers are the faults' own, and no order.
#[derive(Clone, Copy, Debug, PartialEq, Eq)]
pub enum LineFault {
    /// The first word is none of those that begin a line.
    Word = 1,
    /// There are too few words, or too many.
    Count = 2,
    /// An address is not four numbers from 0 to 255 joined by dots.
    Address = 3,
    /// A key number is not from 1 to 65,535.
    Number = 4,
    /// An algorithm is neither `md5` nor `sha1`.
    Algorithm = 5,
    /// A key is not 2 to 64 hexadecimal digits, an even number.
    KeyText = 6,
    /// A budget is not from 1 to 65,535.
    Budget = 7,
    /// Memory ran out.
    NoMemory = 8,
    /// A moment is not an era, a colon and a stamp.
    Moment = 9,
    /// A stamp is not 16 hexadecimal digits.
    Stamp = 10,
    /// A reference is not 46 hexadecimal digits, or no reference state has these fields.
    Reference = 11,
    /// Octets are not an even number of hexadecimal digits, at least 2, nor `-`.
    Hex = 12,
    /// A line of a commands file has more than 4,096 octets.
    LineLong = 13,
    /// A line of a commands file is no UTF-8.
    NotUtf8 = 14,
}

impl LineFault {
    /// The word for it. It takes no memory.
    pub fn word(self) -> &'static str
        ensures { result.now ≡ line_fault_word self }
    {
        match self {
            LineFault::Word => "word",
            LineFault::Count => "count",
            LineFault::Address => "address",
            LineFault::Number => "number",
            LineFault::Algorithm => "algorithm",
            LineFault::KeyText => "key",
            LineFault::Budget => "budget",
            LineFault::NoMemory => "memory",
            LineFault::Moment => "moment",
            LineFault::Stamp => "stamp",
            LineFault::Reference => "reference",
            LineFault::Hex => "hex",
            LineFault::LineLong => "line-long",
            LineFault::NotUtf8 => "not-utf8",
        }
    }
}
