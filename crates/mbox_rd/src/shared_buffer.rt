//! The large buffer that the mailboxes of a thread share, each for its turn.
//!
//! Whoever begins a turn is lent the larger of two buffers, the shared one and its own, and the other one lies here
//! meanwhile. Where another mailbox has the large one the turn works with the small one that it has, and writes more
//! often. What lies here is empty, whoever had it.
ghost use Rattle.std.specs.Prelude.{◌≡◌, ◌≤◌, [], vec_capacity};
ghost use Rattle.mbox_rd.specs.declared.shared_buffer.TheConstants.{OWN_SIZE};

use std::alloc::{AllocError, Global};
use std::mem;
use std::sync::Mutex;

/// The bytes that wait at most before they are written. Writes but the last end at a multiple of it in the file: so the
/// system has whole large pages of a large record, which it makes and keeps in less time.
pub(crate) const BUFFER_SIZE: usize = 262_144;

/// The bytes of a mailbox's own buffer.
pub(crate) const OWN_SIZE: usize = 64;

/// A buffer of 262,144 bytes, in which what a turn takes waits until it is written. The mailboxes that share it have
/// it one after the other.
#[derive(Drop)]
pub struct SharedBuffer {
    spare: Mutex<Spare>,
}

// What nobody has now.
#[derive(Drop)]
struct Spare {
    bytes: Vec<u8>,
    ghost is_empty: { bytes.items ≡ [] },
    ghost has_room: { OWN_SIZE ≤ vec_capacity bytes },
}

impl SharedBuffer {
    /// From here on it takes no memory.
    pub fn new(alloc: Global) -> Result<SharedBuffer, AllocError> {
        let bytes = Vec::with_capacity(alloc, BUFFER_SIZE)?;
        Ok(SharedBuffer {
            spare: Mutex::new(Spare { bytes }),
        })
    }

    /// Gives what lies here for a mailbox's own, where it is larger.
    pub(crate) fn lend(&self, own: &mut Vec<u8>)
        requires empty { own.old.items ≡ [] }
        requires room { OWN_SIZE ≤ vec_capacity own.old }
        ensures empty { own.new.items ≡ [] }
        ensures room { OWN_SIZE ≤ vec_capacity own.new }
        ensures larger { vec_capacity own.old ≤ vec_capacity own.new }
    {
        if let Some(mut place) = self.spare.try_lock() {
            let spare = &mut *place;
            if own.capacity() < spare.bytes.capacity() {
                mem::swap(own, &mut spare.bytes);
            }
        }
    }

    /// Takes back what was lent, and gives what lies here for it.
    pub(crate) fn take_back(&self, lent: &mut Vec<u8>)
        requires empty { lent.old.items ≡ [] }
        requires room { OWN_SIZE ≤ vec_capacity lent.old }
        ensures empty { lent.new.items ≡ [] }
        ensures room { OWN_SIZE ≤ vec_capacity lent.new }
        ensures smaller { vec_capacity lent.new ≤ vec_capacity lent.old }
    {
        if let Some(mut place) = self.spare.try_lock() {
            let spare = &mut *place;
            if spare.bytes.capacity() < lent.capacity() {
                mem::swap(lent, &mut spare.bytes);
            }
        }
    }
}
