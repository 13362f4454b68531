//! The rule of the table of words, and what its steps tell.

use crate::view::{Opening, View};
use atomic_table::{Join, Play, Split, TableRule};
use std::marker::{Brand, PhantomData};

/// The word of a slot is its generation times `GENERATION_UNIT` plus its weight.
pub struct HoldRule;

impl TableRule<(), View, Opening> for HoldRule {
    ghost use Rattle.msg_depot.specs.Rules.{ObeysHoldRule, resting, free_slots};

    ghost holds = { λ _ s. ObeysHoldRule s.words s.views };

    ghost first = { λ k. resting (free_slots k.slots k.generation) };
}

/// A hold of weight 1 is cut off.
pub struct One;

impl Split<View> for One {
    ghost use Rattle.msg_depot.specs.Moves.{one_less, one};

    ghost left = { one_less };

    ghost right = { one };
}

/// A hold of weight 1 is given up.
pub struct Releases;

impl Play<(), View> for Releases {
    ghost use Rattle.msg_depot.specs.Moves.{Released};

    ghost then = { Released };
}

/// Bytes that a step adds. Each call picks them.
pub trait Piece {
    ghost use Rattle.std.specs.Prelude.{List, ℕ};

    ghost bytes: { List ℕ };
}

impl Piece for Brand {
    ghost use Rattle.std.specs.Prelude.{[]};

    ghost bytes = { [] };
}

/// The keeper splits off what it has joined.
pub struct Off;

impl Split<View> for Off {
    ghost use Rattle.msg_depot.specs.Moves.{emptied, handed};

    ghost left = { emptied };

    ghost right = { handed };
}

/// The keeper joins what another seat has.
pub struct In;

impl Join<View> for In {
    ghost use Rattle.msg_depot.specs.Rules.{nobody};
    ghost use Rattle.msg_depot.specs.Moves.{taking};

    ghost both = { taking };

    ghost spent = { nobody };
}

/// The keeper learns that what it joined agrees with its entry.
pub struct Checks;

impl Play<(), View> for Checks {
    ghost use Rattle.msg_depot.specs.Moves.{Checked};

    ghost then = { Checked };
}

/// A free slot gets a draft.
pub struct Begins;

impl Play<(), View> for Begins {
    ghost use Rattle.msg_depot.specs.Moves.{Begun};

    ghost then = { Begun };
}

/// A joined draft gets bytes.
pub struct Puts<B: Piece> {
    of: PhantomData<B>,
}

impl<B: Piece> Play<(), View> for Puts<B> {
    ghost use Rattle.msg_depot.specs.Moves.{Put};

    ghost then = { Put B.bytes };
}

/// A joined draft becomes a hold.
pub struct Seals;

impl Play<(), View> for Seals {
    ghost use Rattle.msg_depot.specs.Moves.{SealedBy};

    ghost then = { SealedBy };
}

/// The slot of a joined draft, or of a joined message that nobody holds, is free, with the next generation.
pub struct Frees;

impl Play<(), View> for Frees {
    ghost use Rattle.msg_depot.specs.Moves.{Freed};

    ghost then = { Freed };
}

/// The same, with the generation that it had: the slot is retired.
pub struct Retires;

impl Play<(), View> for Retires {
    ghost use Rattle.msg_depot.specs.Moves.{RetiredNow};

    ghost then = { RetiredNow };
}
