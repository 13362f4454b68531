//! The quotas of a server's mailboxes.

ghost use Rattle.std.specs.Prelude.{◌≡◌};
ghost use Rattle.mail_world.specs.Quotas.{quota_at};

use std::marker::Model;

/// The quota of each mailbox, if it has one, by the mailboxes' numbers.
#[derive(Drop)]
pub struct Quotas {
    each: Vec<Option<u64>>,
}

impl Model for Quotas {
    ghost use Rattle.std.specs.Prelude.{ℕ, List, Option};

    ghost Value = { List (Option ℕ) };

    ghost view = { λ q. q.each.items };
}

impl Quotas {
    /// These, the first one the quota of the first mailbox.
    pub fn new(each: Vec<Option<u64>>) -> Quotas
        ensures { result ≡ each.items }
    {
        Quotas { each }
    }

    /// That of the mailbox with this number.
    pub fn of(&self, number: u32) -> Option<u64>
        ensures { result ≡ quota_at self.now number }
    {
        match self.each.get(number as usize) {
            Some(quota) => *quota,
            None => None,
        }
    }
}
