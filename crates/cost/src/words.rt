//! The words of the command line.

use ntp_mac::Algorithm;

/// Which reply a query asks for, and under which key.
#[derive(Clone, Copy, PartialEq, Eq)]
pub(crate) enum Query {
    Basic,
    Interleaved,
    /// A basic one under the newer of two keys.
    Newer,
}

/// Who asks, among many customers.
#[derive(Clone, Copy, PartialEq, Eq)]
pub(crate) enum Who {
    Customers,
    Strangers,
}

/// A word: what is counted, by which algorithm, how many fields, or how often.
#[derive(Clone, Copy)]
pub(crate) enum Word {
    Asked(Query),
    Digests,
    Fields,
    From(Who),
    By(Algorithm),
    Number(u64),
    Other,
}

impl Word {
    // What a word says.
    pub(crate) fn of(word: &str) -> Word {
        match word {
            "query" => Word::Asked(Query::Basic),
            "interleaved" => Word::Asked(Query::Interleaved),
            "newer" => Word::Asked(Query::Newer),
            "digests" => Word::Digests,
            "fields" => Word::Fields,
            "customers" => Word::From(Who::Customers),
            "strangers" => Word::From(Who::Strangers),
            "md5" => Word::By(Algorithm::Md5),
            "sha1" => Word::By(Algorithm::Sha1),
            digits => match digits.parse::<u64>() {
                Ok(number) => Word::Number(number),
                Err(_) => Word::Other,
            },
        }
    }
}
