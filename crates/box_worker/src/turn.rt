//! What became of the turns at a mailbox, and who sees that.

ghost use Rattle.std.specs.Prelude.{◌≡◌, List, [], ◌∷◌, Option, None};
ghost use Rattle.box_worker.specs.TurnEnds.{outcome_of, with_ends};

use mail_world::Outcome;
use mbox_spool::{InUse, SpoolFault};

/// What became of a turn at a mailbox.
#[derive(Clone, Copy, Debug, PartialEq, Eq)]
pub enum TurnEnd {
    /// It wasn't had, and nothing was appended.
    Missed(InUse),
    /// It was had, and its copy doesn't fit the quota.
    Over,
    /// Its copy is stored.
    Stored,
    /// A call failed in it: its copy is lost.
    Broke(SpoolFault),
}

impl TurnEnd {
    /// What the copy's lane is told.
    pub(crate) fn outcome(self) -> Outcome
        ensures { result ≡ outcome_of self }
    {
        match self {
            TurnEnd::Missed(_) | TurnEnd::Broke(_) => Outcome::Failed,
            TurnEnd::Over => Outcome::OverQuota,
            TurnEnd::Stored => Outcome::Stored,
        }
    }
}

/// Sees the turns at one mailbox, one after the other.
pub trait TurnObserver: Drop {
    ghost use Rattle.box_worker.specs.declared.turn.TurnEnd.{TurnEnd};

    // what it was told, where it says that
    ghost told: { Self → Option (List TurnEnd) };

    /// The copy's turn has ended so; its lane isn't told yet.
    fn turn(&mut self, end: TurnEnd)
        ensures { told self.new ≡ with_ends (told self.old) (end ∷ []) };
}

/// It sees nothing.
impl TurnObserver for () {
    ghost told = { λ _. None };

    fn turn(&mut self, _end: TurnEnd) {}
}
