//! The steps that a hold takes by its own seat, outside every lock: each is one step on the word of its slot.

ghost use Rattle.std.specs.Prelude.{◌≡◌, ◌+◌, ◌-◌, ◌<◌, [], ◌∷◌, IfSome};
ghost use Rattle.msg_depot.specs.Rules.{weighing};

use crate::rule::{One, Releases};
use crate::token::{Board, DepotName, Hold, Spent, seat_of};
use crate::view::GENERATION_UNIT;
use crate::words::word_at;
use atomic_table::Badge;
use block_arena::Bookmark;
use std::marker::PhantomData;
use std::mem;

/// Cuts a hold of weight 1 off.
pub fn split_one<N: DepotName>(board: &Board, hold: &mut Hold<N>) -> Hold<N>
    requires board { board.now.shared.table_id ≡ N.table }
    requires more { 1 < hold.old.weight }
    ensures new { result ≡ weighing hold.old 1 }
    ensures left { hold.new ≡ weighing hold.old (hold.old.weight - 1) }
{
    let mut seat = seat_of(mem::replace(&mut hold.badge, Badge::blank()));
    let one = board.shared.split_seat::<One>(&mut seat);
    hold.badge = seat.into_badge();
    Hold {
        key: hold.key,
        badge: one.into_badge(),
        mark: Bookmark::default(),
        of: PhantomData,
    }
}

/// Gives a hold of weight 1 up, by one step.
pub fn release<N: DepotName>(board: &Board, hold: Hold<N>) -> Option<Spent<N>>
    requires board { board.now.shared.table_id ≡ N.table }
    requires one { hold.weight ≡ 1 }
    ensures spent { IfSome result (λ s. s ≡ weighing hold 0) }
{
    let Hold {
        key,
        badge,
        mark: _,
        of,
    } = hold;
    let mut seat = seat_of(badge);
    let word = word_at(key.slot);
    let found = board.shared.fetch_sub::<Releases>(&mut seat, word, 1);
    if found % GENERATION_UNIT == 1 {
        Some(Spent {
            key,
            badge: seat.into_badge(),
            of,
        })
    } else {
        None
    }
}
