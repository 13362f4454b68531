//! The turns that a spool had, in proofs alone: a value of no bytes lists them.
ghost use Rattle.std.specs.Prelude.{◌≡◌};
ghost use Rattle.std.specs.Borrow.{ftrue};
ghost use Rattle.mbox_spool.specs.TurnLog.{TurnLog, no_turns, missed};

use std::marker::{Brand, Model, PhantomData};

/// What is listed. A caller that passes `Brand` picks it.
pub trait Listed {
    ghost log: { TurnLog };
}

impl Listed for Brand {
    ghost log = { no_turns };
}

/// How a spool stood at this turn's lock, and the turns that are over.
#[derive(Drop)]
pub struct Turns {
    marker: PhantomData<()>,
    pub ghost log: { TurnLog },
}

impl Model for Turns {
    ghost also_owns = { λ _. ftrue };
}

// It owns nothing.
unsafe impl Send for Turns {}

impl Turns {
    // Only who picks what is listed says what that is. Its proof is written by hand.
    fn listing<L: Listed>() -> Turns
        ensures { result.log ≡ L.log }
    {
        Turns {
            marker: PhantomData,
        }
    }

    /// What is picked may speak of an earlier list, of what is seen now and of how often the spool has failed.
    pub fn after<L: Listed, X>(_old: &Turns, _seen: &X, _failures: u64) -> Turns
        ensures { result.log ≡ L.log }
    {
        Turns::listing::<L>()
    }

    /// None yet.
    pub fn none() -> Turns
        ensures { result.log ≡ no_turns }
    {
        Turns::listing::<Brand>()
    }

    /// One was missed.
    pub fn miss(&mut self)
        ensures { self.new.log ≡ missed self.old.log }
    {
        let turns = Turns::after::<Brand, ()>(self, &(), 0);
        *self = turns;
    }
}
