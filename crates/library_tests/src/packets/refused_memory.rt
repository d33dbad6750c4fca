//! That the allocator refuses what it is told to refuse, and counts.

use std::alloc::{AllocError, Allocator, Global};
use test_support::Refusing;

// A list that has to grow more than once.
fn grown<A: Allocator>(alloc: A) -> Result<usize, AllocError> {
    let mut octets = Vec::new(alloc);
    for octet in 0..100u8 {
        octets.push(octet)?;
    }
    Ok(octets.len())
}

// How many calls there were and how many were refused where the list grows while the nth one is refused, and whether it grew.
fn grown_without(alloc: Global, n: u64) -> (u64, u64, bool) {
    let memory = Refusing::new(alloc);
    memory.refuse_nth(n);
    let end = grown(&memory);
    (memory.calls(), memory.refused(), end == Ok(100))
}

#[test]
fn each_allocation_is_refused_in_turn(rt: HostRuntime) {
    for n in 1..50u64 {
        match grown_without(rt.alloc(), n) {
            (calls, 1, false) => assert!(rt; calls == n, "at {n}"),
            (calls, 0, true) => {
                assert!(rt; calls == n - 1, "at {n}");
                assert!(rt; n > 2, "it grew once");
                return;
            }
            _ => assert!(rt; false, "at {n}"),
        }
    }
    assert!(rt; false, "it never came to its end");
}

#[test]
fn all_or_none_are_refused(rt: HostRuntime) {
    let memory = Refusing::new(rt.alloc());
    memory.refuse_all();
    for calls in 1..4u64 {
        assert!(rt; grown(&memory).is_err());
        assert!(rt; memory.calls() == calls && memory.refused() == calls);
    }
    memory.refuse_none();
    assert!(rt; grown(&memory) == Ok(100));
    assert!(rt; memory.calls() > 3 && memory.refused() == 3);
}
