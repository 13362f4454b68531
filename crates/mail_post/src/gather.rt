//! The gatherer of a lane: the slips of one transaction come in any order, and its answers are in the order of the
//! recipients.

ghost use Rattle.std.specs.Prelude.{◌≡◌, ◌≤◌, ◌↔◌, List, [], ◌∷◌, ◌++◌, map, Some, ℕ, false, IsTrue, IsOk, IfOk, OnErr};
ghost use Rattle.mail_world.specs.Slips.{answers, gather_for, gathered};
ghost use Rattle.mail_post.specs.Gathering.{IsDone, IsStranger, IsOwn, IsDouble, IsAwaited, HasGathered, NoneNames};

use mail_world::{Outcome, Slip, Txn};
use std::alloc::{AllocError, Global};
use std::marker::Model;
use thiserror::Error;

/// Why a slip changed nothing. A stranger is told as such, also where its place has its slip.
#[derive(Clone, Copy, Debug, PartialEq, Eq, Error)]
pub enum GatherFault {
    #[error("the place has its slip")]
    Double = 1,
    #[error("the slip is of another transaction, or for no place of this one")]
    Stranger = 2,
}

/// The places of one transaction, each open until its slip comes. Contracts see the gatherer of the definitions, and
/// how many places there may be.
#[derive(Drop)]
pub struct Gather {
    txn: Txn,
    places: usize,
    missing: usize,
    heard: Vec<bool>,
    outcomes: Vec<Outcome>,
}

impl Model for Gather {
    ghost use Rattle.mail_post.specs.Gathering.{Gathering};

    ghost Value = { Gathering };

    ghost use Rattle.mail_post.specs.Places.{gathering_of, IsGather};

    ghost view = { gathering_of };

    ghost invariant = { IsGather };
}

impl Gather {
    /// A gatherer without places, in all the memory that it will ever have.
    pub fn new(alloc: Global, limit: usize) -> Result<Gather, AllocError>
        ensures no_place { IfOk result (λ g. g.gather.places ≡ []) }
        ensures limit { IfOk result (λ g. g.limit ≡ limit) }
    {
        let heard = vec![in alloc; false; limit]?;
        // Nothing shows an outcome whose slip was not heard.
        let outcomes = vec![in alloc; Outcome::Failed; limit]?;
        Ok(Gather {
            txn: Txn { lane: 0, number: 0 },
            places: 0,
            missing: 0,
            heard,
            outcomes,
        })
    }

    /// Begins again, for a transaction with that many recipients.
    pub fn begin(&mut self, txn: Txn, places: u32)
        requires { places ≤ self.old.limit }
        ensures begun { self.new ≡ record self.old { gather = gather_for txn places } }

        // The slips that a lane heard go on through its transactions; what counts is that none of them names this one
        // yet.
        ensures heard { (heard : List Slip) → NoneNames txn heard → HasGathered txn places heard self.new.gather }
    {
        self.txn = txn;
        self.places = places as usize;
        self.missing = places as usize;
        self.heard.fill(false);
    }

    /// Takes the slip of a place that is open.
    pub fn put(&mut self, slip: Slip) -> Result<(), GatherFault>
        ensures stranger { (result ≡ Err GatherFault.Stranger) ↔ IsStranger self.old.gather slip }
        ensures double { (result ≡ Err GatherFault.Double) ↔ IsDouble self.old.gather slip }
        ensures ok { IsOk result ↔ IsAwaited self.old.gather slip }

        ensures gathered { self.new ≡ record self.old { gather = gathered self.old.gather slip } }
        ensures err { OnErr result (self.new ≡ self.old) }

        // The first slip that names a place counts, so a refused one may be told among those that were heard.
        ensures heard { (txn : Txn) (n : ℕ) (heard : List Slip) → HasGathered txn n heard self.old.gather
            → HasGathered txn n (heard ++ slip ∷ []) self.new.gather }
    {
        if self.is_stranger(slip) {
            return Err(GatherFault::Stranger);
        }
        let place = slip.place as usize;
        if self.heard[place] {
            return Err(GatherFault::Double);
        }
        self.heard[place] = true;
        self.outcomes[place] = slip.outcome;
        self.missing -= 1;
        Ok(())
    }

    /// Whether each place has its slip.
    pub fn done(&self) -> bool
        ensures { IsTrue result ↔ IsDone self.now.gather }
    {
        self.missing == 0
    }

    /// What became of the copies, in the order of the recipients.
    pub fn answers(&self) -> &[Outcome]
        requires { IsDone self.now.gather }
        ensures places { map (λ o. Some o) result.now ≡ self.now.gather.places }
        ensures heard { (txn : Txn) (n : ℕ) (heard : List Slip) → HasGathered txn n heard self.now.gather
            → map (λ o. Some o) result.now ≡ answers txn n heard }
    {
        &self.outcomes[..self.places]
    }

    /// Whether a slip is of another transaction, or for no place of this one.
    fn is_stranger(&self, slip: Slip) -> bool
        ensures stranger { IsTrue result → IsStranger self.now.gather slip }
        ensures own { result ≡ false → IsOwn self.now.gather slip }
    {
        slip.txn != self.txn || self.places <= slip.place as usize
    }
}
