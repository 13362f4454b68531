//! The tokens of a message, each with a seat of its own at the table of words. That a token is of the depot at hand is
//! known by its type alone, which names the table.

ghost use Rattle.std.specs.Prelude.{◌≡◌, [], ◌∷◌};
ghost use Rattle.msg_depot.specs.Rules.{token, kind_of, claim_of};

use crate::rule::HoldRule;
use crate::view::{Opening, View};
use atomic_table::{Badge, Seat, Table};
use block_arena::{Bookmark, Key};
use std::alloc::Global;
use std::marker::{Brand, Model, PhantomData};

/// Names one table, so that tokens, keeper and depot of one name are of one table.
pub trait DepotName {
    ghost use Rattle.atomic_table.specs.Seated.{TableId};

    ghost table: { TableId };
}

impl DepotName for Brand {
    ghost use Rattle.msg_depot.specs.Rules.{no_table};

    ghost table = { no_table };
}

/// The words of the slots.
pub type Board = Table<(), View, Opening, HoldRule, Global>;

/// A seat of such a table.
pub type Place = Seat<(), View>;

/// A message that is being written.
#[derive(Drop)]
pub struct Draft<N: DepotName> {
    pub(crate) key: Key,
    pub(crate) badge: Badge<View>,
    pub(crate) of: PhantomData<N>,
}

impl<N: DepotName> Model for Draft<N> {
    ghost use Rattle.msg_depot.specs.declared.view.Claim.{Claim};
    ghost use Rattle.msg_depot.specs.declared.view.Kind.TheVariants.{Draft as DraftKind};
    ghost use Rattle.msg_depot.specs.Rules.{claim_of};
    ghost use Rattle.msg_depot.specs.Tokens.{IsToken};

    ghost Value = { Claim };

    ghost view = { λ h. claim_of h.badge.views };

    ghost invariant = { λ h. IsToken DraftKind N.table h.badge.table_id h.badge.views h.key };
}

/// Some weight of a sealed message.
#[derive(Drop)]
pub struct Hold<N: DepotName> {
    pub(crate) key: Key,
    pub(crate) badge: Badge<View>,
    pub(crate) mark: Bookmark,
    pub(crate) of: PhantomData<N>,
}

impl<N: DepotName> Model for Hold<N> {
    ghost use Rattle.msg_depot.specs.declared.view.Claim.{Claim};
    ghost use Rattle.msg_depot.specs.declared.view.Kind.TheVariants.{Hold as HoldKind};
    ghost use Rattle.msg_depot.specs.Rules.{claim_of};
    ghost use Rattle.msg_depot.specs.Tokens.{IsToken};

    ghost Value = { Claim };

    ghost view = { λ h. claim_of h.badge.views };

    ghost invariant = { λ h. IsToken HoldKind N.table h.badge.table_id h.badge.views h.key };
}

/// The right to give back the blocks of a message that nobody holds.
#[derive(Drop)]
pub struct Spent<N: DepotName> {
    pub(crate) key: Key,
    pub(crate) badge: Badge<View>,
    pub(crate) of: PhantomData<N>,
}

impl<N: DepotName> Model for Spent<N> {
    ghost use Rattle.msg_depot.specs.declared.view.Claim.{Claim};
    ghost use Rattle.msg_depot.specs.declared.view.Kind.TheVariants.{Spent as SpentKind};
    ghost use Rattle.msg_depot.specs.Rules.{claim_of};
    ghost use Rattle.msg_depot.specs.Tokens.{IsToken};

    ghost Value = { Claim };

    ghost view = { λ h. claim_of h.badge.views };

    ghost invariant = { λ h. IsToken SpentKind N.table h.badge.table_id h.badge.views h.key };
}

// The seat of a token's badge.
pub(crate) fn seat_of(badge: Badge<View>) -> Place
    requires { badge.views ≡ token (kind_of badge.views) (claim_of badge.views) ∷ [] }
    ensures { (result.table_id ≡ badge.table_id)
        × (result.me ≡ (token (kind_of badge.views) (claim_of badge.views), [])) }
{
    badge.into_seat()
}
