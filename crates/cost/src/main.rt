//! What a datagram costs: a program to be run under a counter of instructions, as docs/PERFORMANCE.md says.
//!
//! `cost query md5 N` answers N signed queries of one customer, `cost interleaved md5 N` as many that each ask about
//! the reply before, and `cost newer md5 N` as many under the newer of its two keys; `cost digests md5 N` computes the two digests
//! of each alone; `cost fields F N` reads a request with F extension fields N times;
//! `cost customers C R N` answers N signed queries of C customers in turn, beside R addresses that
//! were revoked, and `cost strangers C R N` as many from addresses that were never enrolled. It prints how many were answered,
//! computed or read.
#![tactic(auto)]

mod many;
mod words;
mod work;

use std::{env, io};
use words::Word;

fn main(rt: HostRuntime) -> io::Result<()> {
    let mut words = [Word::Other; 4];
    for (place, word) in env::args(&rt)?.skip(1).enumerate() {
        if let Some(slot) = words.get_mut(place) {
            *slot = Word::of(word.as_str());
        }
    }
    let done = work::done(rt.alloc(), words);
    println!(rt; "{done}")
}
