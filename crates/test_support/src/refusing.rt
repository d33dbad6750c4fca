//! An allocator that passes each call on to another one, counts the allocations that it is asked for, and refuses those that it is told
//! to refuse.

use std::alloc::{AllocError, Allocator};
use std::cell::Cell;

/// What was asked for and refused, and what is to be refused. Calls are numbered from 1.
#[derive(Clone, Copy)]
struct Tally {
    calls: u64,
    refused: u64,
    // The first and the last call that are refused.
    first: u64,
    last: u64,
}

/// An allocator that can be told to refuse. A test lends it as `&Refusing<B>`, which is an allocator that can be
/// copied.
pub struct Refusing<B: Allocator> {
    inner: B,
    tally: Cell<Tally>,
}

impl<B: Allocator> Refusing<B> {
    /// One that refuses nothing yet.
    pub fn new(inner: B) -> Refusing<B> {
        Refusing {
            inner,
            tally: Cell::new(Tally {
                calls: 0,
                refused: 0,
                first: 0,
                last: 0,
            }),
        }
    }

    /// Has the Nth allocation from here on refused, and no other. The first is number 1.
    pub fn refuse_nth(&self, n: u64) {
        let tally = self.tally.get();
        let nth = tally.calls.saturating_add(n);
        self.tally.set(Tally {
            first: nth,
            last: nth,
            ..tally
        });
    }

    /// Has every allocation from here on refused.
    pub fn refuse_all(&self) {
        self.tally.set(Tally {
            first: 0,
            last: u64::MAX,
            ..self.tally.get()
        });
    }

    /// Has no allocation from here on refused.
    pub fn refuse_none(&self) {
        self.tally.set(Tally {
            first: 0,
            last: 0,
            ..self.tally.get()
        });
    }

    /// How many allocations were asked for, those that were refused too. A block that grows or shrinks counts.
    pub fn calls(&self) -> u64 {
        self.tally.get().calls
    }

    /// How many allocations were refused.
    pub fn refused(&self) -> u64 {
        self.tally.get().refused
    }
}

impl<B: Allocator> Drop for Refusing<B> {
    fn drop(self) {
        let Self { inner: _, tally: _ } = self;
    }
}

// Counts a call, and says whether it is refused.
fn refuses(tally: &Cell<Tally>) -> bool {
    let mut now = tally.get();
    now.calls = now.calls.saturating_add(1);
    let refuses = now.first <= now.calls && now.calls <= now.last;
    if refuses {
        now.refused = now.refused.saturating_add(1);
    }
    tally.set(now);
    refuses
}

// `grow` and `shrink` are the trait's own, which allocate anew.
unsafe impl<B: Allocator> Allocator for Refusing<B> {
    ghost dealloc_token = { λ heap ty ptr. B.dealloc_token heap.inner ty ptr };

    fn allocate(&self, size: usize, align: usize) -> Result<*mut u8, AllocError> {
        if refuses(&self.tally) {
            return Err(AllocError);
        }
        self.inner.allocate(size, align)
    }

    unsafe fn deallocate(&self, ptr: *mut u8, size: usize, align: usize) {
        self.inner.deallocate(ptr, size, align);
    }
}
