//! A copy of a message on its way to a mailbox.

ghost use Rattle.std.specs.Prelude.{◌≡◌};
ghost use Rattle.mbox_record.specs.Lengths.{lengths_of};
ghost use Rattle.mail_post.specs.Copies.{copy_of, envelope_of};

use mail_world::Txn;
use mbox_record::{Envelope, Lengths};
use msg_depot::{DepotName, Hold};
use std::marker::Model;

/// One copy of a sealed message, for one recipient, and how long its text is in a record. Contracts see its note, which
/// tells that too.
#[derive(Drop)]
pub struct Post<N: DepotName> {
    txn: Txn,
    place: u32,
    mailbox: u32,
    envelope: Envelope,
    lengths: Lengths,
    hold: Hold<N>,
}

impl<N: DepotName> Model for Post<N> {
    ghost use Rattle.std.specs.Prelude.{◌≡◌};
    ghost use Rattle.mail_world.specs.declared.Note.{Note};
    ghost use Rattle.mbox_record.specs.Lengths.{lengths_of};
    ghost use Rattle.mail_post.specs.Copies.{copy_of};

    ghost Value = { Note };

    ghost view = { λ p. copy_of p.txn p.place p.mailbox p.envelope p.hold.bytes };

    ghost invariant = { λ p. (p.envelope.txn ≡ p.txn) × (p.hold.weight ≡ 1)
        × (p.lengths ≡ lengths_of p.hold.bytes) };
}

impl<N: DepotName> Post<N> {
    /// The copy of the held message for the transaction's recipient at that place.
    pub fn new(
        txn: Txn,
        place: u32,
        mailbox: u32,
        envelope: Envelope,
        lengths: Lengths,
        hold: Hold<N>,
    ) -> Post<N>
        requires txn { envelope.txn ≡ txn }
        requires lengths { lengths ≡ lengths_of hold.bytes }
        requires weight { hold.weight ≡ 1 }
        ensures { result ≡ copy_of txn place mailbox envelope hold.bytes }
    {
        Post {
            txn,
            place,
            mailbox,
            envelope,
            lengths,
            hold,
        }
    }

    /// The number of its mailbox.
    pub fn mailbox(&self) -> u32
        ensures { result ≡ self.now.mailbox }
    {
        self.mailbox
    }

    /// What it was made of.
    pub fn parts(self) -> Parts<N>
        ensures names { (result.txn ≡ self.txn) × (result.place ≡ self.place) × (result.mailbox ≡ self.mailbox) }
        ensures envelope { result.envelope ≡ envelope_of self }
        ensures lengths { result.lengths ≡ lengths_of self.message }
        ensures hold { (result.hold.bytes ≡ self.message) × (result.hold.weight ≡ 1) }
    {
        let Post {
            txn,
            place,
            mailbox,
            envelope,
            lengths,
            hold,
        } = self;
        Parts {
            txn,
            place,
            mailbox,
            envelope,
            lengths,
            hold,
        }
    }
}

/// What a copy is made of.
#[derive(Drop)]
pub struct Parts<N: DepotName> {
    pub txn: Txn,
    pub place: u32,
    pub mailbox: u32,
    pub envelope: Envelope,
    pub lengths: Lengths,
    pub hold: Hold<N>,
}
