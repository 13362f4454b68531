//! The arena with the seat that knows its messages: the value under the lock.

ghost use Rattle.std.specs.Prelude.{◌≡◌, ◌+◌, ◌-◌, ◌^◌, ◌<◌, ◌≤◌, true, [], length, take, drop, min, IfOk, IfErr};
ghost use Rattle.std.specs.List.{AllByRecursion};
ghost use Rattle.mail_world.specs.Depot.{weight_under, HasRoom, Begins, Puts, Seals, Cancels};
ghost use Rattle.mail_world.specs.Depot as depot;
ghost use Rattle.block_arena.specs.Calls.{IsUsed, IsGivenBack};
ghost use Rattle.msg_depot.specs.Rules.{weighing, resting, keeping, word_of};
ghost use Rattle.msg_depot.specs.Moves.{longer_claim, entered, IsOver};
ghost use Rattle.msg_depot.specs.Entries.{entry_of, key_of, slot_given_back, IsKeeper};

use crate::steps;
use crate::token::{Board, DepotName, Draft, Hold, Place, Spent, seat_of};
use atomic_table::Badge;
use block_arena::{Arena, ArenaFault, Bookmark, Key};
use mail_world::limits::{LAST_GENERATION, RECIPIENT_LIMIT};
use std::marker::{Brand, Model, PhantomData};
use std::mem;
use thiserror::Error;

/// Every slot is in use or retired, or too few blocks are free. Only this module makes one, since its field is private:
/// what else answers it hands on the keeper's own.
#[derive(Debug, Drop, Error)]
#[error("every slot is in use, or too few blocks are free")]
pub struct NoRoom {
    of: (),
}

/// The messages, and what their tokens are held against. Contracts see the arena's depot.
#[derive(Drop)]
pub struct Keeper<N: DepotName> {
    arena: Arena,
    seat: Place,
    of: PhantomData<N>,
}

impl<N: DepotName> Model for Keeper<N> {
    ghost use Rattle.mail_world.specs.Depot.{Depot};
    ghost use Rattle.msg_depot.specs.Entries.{IsKeeper};

    ghost Value = { Depot };

    ghost view = { λ k. k.arena };

    ghost invariant = { λ k. IsKeeper N.table k.seat.table_id k.seat.me k.arena };
}

impl<N: DepotName> Keeper<N> {
    pub(crate) fn new(arena: Arena, seat: Place) -> Keeper<N>
        requires { IsKeeper N.table seat.table_id seat.me arena }
        ensures { result ≡ arena }
    {
        Keeper {
            arena,
            seat,
            of: PhantomData,
        }
    }

    /// How many blocks are free.
    pub fn free_blocks(&self) -> u32
        ensures { result ≡ length self.now.free }
    {
        self.arena.free_blocks()
    }

    /// A draft without bytes.
    pub fn draft(&mut self, board: &Board) -> Result<Draft<N>, NoRoom>
        requires board { board.now.shared.table_id ≡ N.table }
        ensures begun { IfOk result (λ d. Begins self.old (key_of d) self.new) }
        ensures empty { IfOk result (λ d. (d.bytes ≡ []) × (d.weight ≡ 0)) }
        ensures none { IfErr result (λ _. AllByRecursion (λ (slot : depot.Slot). IsUsed slot.held) self.old.slots) }
        ensures same { IfErr result (λ _. self.new ≡ self.old) }
    {
        let Some(key) = self.arena.begin() else {
            return Err(NoRoom { of: () });
        };
        let slot = key.slot;
        steps::begin(board, &mut self.seat, slot);
        let badge = steps::hand_out(board, &mut self.seat, slot).into_badge();
        Ok(Draft {
            key,
            badge,
            of: PhantomData,
        })
    }

    /// Adds bytes at the draft's end.
    pub fn put(&mut self, board: &Board, draft: &mut Draft<N>, piece: &[u8]) -> Result<(), NoRoom>
        requires board { board.now.shared.table_id ≡ N.table }
        ensures done { IfOk result (λ _. Puts self.old (key_of draft.old) piece.now self.new) }
        ensures longer_claim { IfOk result (λ _. draft.new ≡ longer_claim draft.old piece.now) }
        ensures full { IfErr result (λ _. ¬ HasRoom self.old (key_of draft.old) piece.now) }
        ensures same { IfErr result (λ _. (draft.new ≡ draft.old) × (self.new ≡ self.old)) }
    {
        let key = draft.key;
        let slot = key.slot;
        let seat = seat_of(mem::replace(&mut draft.badge, Badge::blank()));
        steps::take_in(board, &mut self.seat, seat, slot);
        match self.arena.put(key, piece) {
            Ok(()) => {}
            Err(ArenaFault::Full) => {
                draft.badge = steps::hand_out(board, &mut self.seat, slot).into_badge();
                return Err(NoRoom { of: () });
            }
            Err(_) => unreachable!(),
        }
        steps::put_bytes::<Brand>(board, &mut self.seat, slot, piece);
        draft.badge = steps::hand_out(board, &mut self.seat, slot).into_badge();
        Ok(())
    }

    /// Ends the draft with this many holds.
    pub fn seal(&mut self, board: &Board, draft: Draft<N>, n: u32) -> Hold<N>
        requires board { board.now.shared.table_id ≡ N.table }
        requires n { (1 ≤ n) × (n ≤ RECIPIENT_LIMIT) }
        ensures done { Seals self.old (key_of draft) n self.new }
        ensures hold { result ≡ weighing draft n }
    {
        let Draft { key, badge, of } = draft;
        let slot = key.slot;
        steps::take_in(board, &mut self.seat, seat_of(badge), slot);
        let Ok(()) = self.arena.seal(key, n) else {
            unreachable!()
        };
        steps::seal(board, &mut self.seat, slot, u64::from(n));
        let badge = steps::hand_out(board, &mut self.seat, slot).into_badge();
        Hold {
            key,
            badge,
            mark: Bookmark::default(),
            of,
        }
    }

    /// Gives the blocks of a draft back.
    pub fn cancel(&mut self, board: &Board, draft: Draft<N>)
        requires board { board.now.shared.table_id ≡ N.table }
        ensures { Cancels self.old (key_of draft) self.new }
    {
        let Draft { key, badge, of: _ } = draft;
        let slot = key.slot;
        steps::take_in(board, &mut self.seat, seat_of(badge), slot);
        let Ok(()) = self.arena.drop_draft(key) else {
            unreachable!()
        };
        free(board, &mut self.seat, key);
    }

    /// The bytes that were sealed, from `at`, as many as there are and fit.
    pub fn read(&mut self, board: &Board, hold: &mut Hold<N>, at: usize, out: &mut [u8]) -> usize
        requires board { board.now.shared.table_id ≡ N.table }
        ensures count { result ≡ min (length out.old) (length hold.old.bytes - at) }
        ensures bytes { take result out.new ≡ take result (drop at hold.old.bytes) }
        ensures end { at + result < 2 ^ 64 }
        ensures rest { drop result out.new ≡ drop result out.old }
        ensures length { length out.new ≡ length out.old }
        ensures same { (hold.new ≡ hold.old) × (self.new ≡ self.old) }
    {
        let key = hold.key;
        let slot = key.slot;
        let seat = seat_of(mem::replace(&mut hold.badge, Badge::blank()));
        steps::take_in(board, &mut self.seat, seat, slot);
        let Ok(count) = self.arena.copy_on(key, at, &mut hold.mark, out) else {
            unreachable!()
        };
        hold.badge = steps::hand_out(board, &mut self.seat, slot).into_badge();
        count
    }

    /// Gives the blocks of a message back that nobody holds: the arena gives up all the holds that it still counts.
    pub fn reclaim(&mut self, board: &Board, spent: Spent<N>)
        requires board { board.now.shared.table_id ≡ N.table }
        ensures { IsGivenBack (weight_under self.old (key_of spent)) self.old (key_of spent) self.new true }
    {
        let Spent { key, badge, of: _ } = spent;
        let slot = key.slot;
        steps::take_in(board, &mut self.seat, seat_of(badge), slot);
        let all = self.arena.holds(key);
        match self.arena.give_back(key, all) {
            Ok(true) => free(board, &mut self.seat, key),
            Ok(false) => unreachable!(),
            Err(_) => unreachable!(),
        }
    }
}

// The slot of a joined draft, or of a joined message that nobody holds, is free with the next generation, or retired.
fn free(board: &Board, seat: &mut Place, key: Key)
    requires seat { (seat.old.table_id ≡ board.now.shared.table_id)
        × (seat.old.me ≡ (keeping seat.old.me.0.book seat.old.me.0.kind seat.old.me.0.claim, [])) }
    requires slot { (word_of key.slot < board.now.shared.table_id.words) × (key.slot ≡ seat.old.me.0.claim.slot)
        × (key.generation ≡ seat.old.me.0.claim.generation) }
    requires over { IsOver seat.old.me.0.kind }
    ensures { (seat.new.table_id ≡ seat.old.table_id)
        × (seat.new.me
        ≡ (resting (entered seat.old.me.0.book key.slot (entry_of (slot_given_back key.generation))), [])) }
{
    let slot = key.slot;
    if key.generation < LAST_GENERATION {
        steps::free(board, seat, slot);
    } else {
        steps::retire(board, seat, slot);
    }
}
