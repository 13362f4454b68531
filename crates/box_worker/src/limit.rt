//! What a worker counts of its mailbox under a quota.

ghost use Rattle.std.specs.Prelude.{◌≡◌, ◌+◌, ◌<◌, ◌^◌, ℕ, SomeIff};
ghost use Rattle.mail_world.specs.Counts.{counted};
ghost use Rattle.box_worker.specs.Limits.{Admits, missing};

use mbox_spool::{Tail, what_mends};

/// A quota of bytes, and how many stand in the mailbox by the worker's own count, which stays at 2^64 - 1.
#[derive(Clone, Copy, PartialEq, Eq)]
pub struct Limit {
    pub quota: u64,
    pub held: u64,
}

impl Limit {
    /// For a mailbox of that many bytes that end so: what mends it is counted already.
    pub fn at(quota: u64, held: u64, tail: Tail) -> Limit
        ensures { result ≡ record { quota = quota; held = counted (held + missing tail) } }
    {
        Limit {
            quota,
            held: held.saturating_add(missing(tail)),
        }
    }

    /// The count after a record of that size too, if the quota lets it in. A record without a size has 2^64 bytes or
    /// more.
    pub fn admit(self, size: Option<u64>) -> Option<Limit>
        ensures { (n : ℕ) → SomeIff size (n < 2 ^ 64) n → Admits self n result }
    {
        let held = self.held.checked_add(size?)?;
        if held > self.quota {
            return None;
        }
        Some(Limit { held, ..self })
    }
}

// How many bytes mend a mailbox that ends so.
fn missing(tail: Tail) -> u64
    ensures { result ≡ missing tail }
{
    let (missing, lfs) = what_mends(tail);
    (missing.len() + lfs.len()) as u64
}
