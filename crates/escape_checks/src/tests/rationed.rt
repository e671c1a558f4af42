//! An allocator that grants as many requests as it is told, refuses the others, and keeps account.

use std::alloc::{AllocError, Allocator};
use std::cell::Cell;

/// What was asked of an allocator since its last ration.
#[derive(Clone, Copy, PartialEq, Eq)]
pub struct Requests {
    /// How many more are granted.
    pub left: u64,
    /// How many were made, granted or refused.
    pub made: u64,
    /// How many bytes the last asked for.
    pub last_size: usize,
}

/// It asks an allocator of its own for what it grants. `&heap` is an allocator too, for a vector.
#[derive(Drop)]
pub struct Rationed<B: Allocator> {
    inner: B,
    requests: Cell<Requests>,
}

impl<B: Allocator> Rationed<B> {
    /// An allocator that grants every request.
    pub fn new(inner: B) -> Rationed<B> {
        Rationed {
            inner,
            requests: Cell::new(ration_of(u64::MAX)),
        }
    }

    /// From now on so many requests are granted, and none of the earlier ones counts.
    pub fn ration(&self, granted: u64) {
        self.requests.set(ration_of(granted));
    }

    /// What was asked since the last ration.
    pub fn requests(&self) -> Requests {
        self.requests.get()
    }
}

fn ration_of(granted: u64) -> Requests {
    Requests {
        left: granted,
        made: 0,
        last_size: 0,
    }
}

/// Notes a request, and returns whether it is refused.
fn is_refused(requests: &Cell<Requests>, size: usize) -> bool {
    let before = requests.get();
    requests.set(Requests {
        left: before.left.saturating_sub(1),
        made: before.made.saturating_add(1),
        last_size: size,
    });
    before.left == 0
}

unsafe impl<B: Allocator> Allocator for Rationed<B> {
    ghost dealloc_token = { λ heap ty ptr. B.dealloc_token heap.inner ty ptr };

    fn allocate(&self, size: usize, align: usize) -> Result<*mut u8, AllocError> {
        if is_refused(&self.requests, size) {
            return Err(AllocError);
        }
        self.inner.allocate(size, align)
    }

    unsafe fn deallocate(&self, ptr: *mut u8, size: usize, align: usize) {
        self.inner.deallocate(ptr, size, align);
    }
}
