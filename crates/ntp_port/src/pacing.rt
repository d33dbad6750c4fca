//! How often a source of commands is asked.
ghost use Rattle.std.specs.Prelude.{◌≡◌, None};
ghost use Rattle.ntp_port.specs.Pacing.{is_due, Paced};

use crate::CommandsSource;
use ntp_packet::{Moment, Stamp};
use std::alloc::Allocator;

/// A thousandth of a second, in units of 2^-32 seconds.
const MILLISECOND: u64 = 4_294_967;

/// A source of commands that is asked at most once in a thousandth of a second, by the receipts of the datagrams; and always where no
/// datagram waits, and where the clock was set back. In between a look costs and gives nothing.
#[derive(Drop)]
pub struct EachMillisecond<C> {
    /// The source.
    pub source: C,
    // The last receipt with which the source was asked.
    asked: Option<Stamp>,
}

impl<C> EachMillisecond<C> {
    /// This source, which was not asked yet.
    pub fn new(source: C) -> EachMillisecond<C>
        ensures source { result.source ≡ source }
        ensures asked { result.asked ≡ None }
    {
        EachMillisecond {
            source,
            asked: None,
        }
    }
}

impl<C: CommandsSource<A>, A: Allocator> CommandsSource<A> for EachMillisecond<C> {
    ghost looked = { Paced C.looked };

    /// What the source gives, where it is asked, and else nothing. It takes memory only as the source does.
    fn look(&mut self, alloc: A, receipt: Option<Moment>) -> Option<Vec<u8, A>> {
        if !is_due(self.asked, receipt) {
            return None;
        }
        if let Some(receipt) = receipt {
            self.asked = Some(receipt.stamp);
        }
        self.source.look(alloc, receipt)
    }
}

// Returns whether it is time to ask again for what was last asked for then: where a datagram has come, by its receipt, and always where
// the clock could not be read.
fn is_due(asked: Option<Stamp>, receipt: Option<Moment>) -> bool
    ensures { result ≡ is_due asked receipt }
{
    match (asked, receipt) {
        (Some(asked), Some(receipt)) => {
            receipt.stamp.0 == 0 || receipt.stamp.0.wrapping_sub(asked.0) >= MILLISECOND
        }
        _ => true,
    }
}
