//! The steps of the keeper's seat.

ghost use Rattle.std.specs.Prelude.{◌≡◌, ◌+◌, ◌<◌, ◌≤◌, ◌≢◌, [], length};
ghost use Rattle.mail_world.specs.Depot.{last_generation};
ghost use Rattle.msg_depot.specs.Rules.{keeping, resting, token, entry, phase_of, word_of};
ghost use Rattle.msg_depot.specs.Moves.{begun, put, sealed, freed, entry_at, IsOver};
ghost use Rattle.msg_depot.specs.declared.view.Kind.TheVariants.{Nothing, Draft};
ghost use Rattle.msg_depot.specs.declared.view.Phase.TheVariants.{Free, Retired};

use crate::rule::{Begins, Checks, Frees, In, Off, Piece, Puts, Retires, Seals};
use crate::token::{Board, Place};
use crate::view::GENERATION_UNIT;
use crate::words::word_at;
use mail_world::limits::RECIPIENT_LIMIT;

/// Joins what another seat has, and learns that it agrees with the keeper's entry.
pub fn take_in(board: &Board, seat: &mut Place, other: Place, slot: u32)
    requires seat { (seat.old.table_id ≡ board.now.shared.table_id) × (seat.old.me ≡ (resting seat.old.me.0.book, [])) }
    requires other { (other.table_id ≡ board.now.shared.table_id)
        × (other.me ≡ (token other.me.0.kind other.me.0.claim, [])) }
    requires slot { word_of slot < board.now.shared.table_id.words }
    ensures seat { (seat.new.table_id ≡ seat.old.table_id)
        × (seat.new.me ≡ (keeping seat.old.me.0.book other.me.0.kind other.me.0.claim, [])) }
    ensures agrees { other.me.0.kind ≢ Nothing
        → (other.me.0.claim.slot < length seat.old.me.0.book)
        × (entry_at seat.old.me.0.book other.me.0.claim.slot
        ≡ entry (phase_of other.me.0.kind) other.me.0.claim.generation other.me.0.claim.bytes) }
{
    board.shared.join_seat::<In>(seat, other);
    board.shared.load::<Checks>(seat, word_at(slot));
}

/// Splits off what was joined.
pub fn hand_out(board: &Board, seat: &mut Place, slot: u32) -> Place
    requires seat { (seat.old.table_id ≡ board.now.shared.table_id)
        × (seat.old.me ≡ (keeping seat.old.me.0.book seat.old.me.0.kind seat.old.me.0.claim, [])) }
    requires slot { word_of slot < board.now.shared.table_id.words }
    ensures seat { (seat.new.table_id ≡ seat.old.table_id) × (seat.new.me ≡ (resting seat.old.me.0.book, [])) }
    ensures result { (result.table_id ≡ seat.old.table_id)
        × (result.me ≡ (token seat.old.me.0.kind seat.old.me.0.claim, [])) }
{
    board.shared.split_seat::<Off>(seat)
}

/// Begins a draft in a free slot.
pub fn begin(board: &Board, seat: &mut Place, slot: u32)
    requires seat { (seat.old.table_id ≡ board.now.shared.table_id) × (seat.old.me ≡ (resting seat.old.me.0.book, [])) }
    requires slot { word_of slot < board.now.shared.table_id.words }
    requires free { (slot < length seat.old.me.0.book) × ((entry_at seat.old.me.0.book slot).phase ≡ Free) }
    ensures { (seat.new.table_id ≡ seat.old.table_id) × (seat.new.me ≡ (begun seat.old.me.0 slot, [])) }
{
    board.shared.load::<Begins>(seat, word_at(slot));
}

/// Adds bytes to a joined draft.
pub fn put_bytes<B: Piece>(board: &Board, seat: &mut Place, slot: u32, piece: &[u8])
    requires piece { piece.now ≡ B.bytes }
    requires seat { (seat.old.table_id ≡ board.now.shared.table_id)
        × (seat.old.me ≡ (keeping seat.old.me.0.book Draft seat.old.me.0.claim, [])) }
    requires slot { (word_of slot < board.now.shared.table_id.words) × (slot ≡ seat.old.me.0.claim.slot) }
    ensures { (seat.new.table_id ≡ seat.old.table_id) × (seat.new.me ≡ (put seat.old.me.0 piece.now, [])) }
{
    board.shared.load::<Puts<B>>(seat, word_at(slot));
}

/// Makes a joined draft a hold of this weight.
pub fn seal(board: &Board, seat: &mut Place, slot: u32, weight: u64)
    requires seat { (seat.old.table_id ≡ board.now.shared.table_id)
        × (seat.old.me ≡ (keeping seat.old.me.0.book Draft seat.old.me.0.claim, [])) }
    requires slot { (word_of slot < board.now.shared.table_id.words) × (slot ≡ seat.old.me.0.claim.slot) }
    requires weight { (0 < weight) × (weight ≤ RECIPIENT_LIMIT) }
    ensures { (seat.new.table_id ≡ seat.old.table_id) × (seat.new.me ≡ (sealed seat.old.me.0 weight, [])) }
{
    board.shared.fetch_add::<Seals>(seat, word_at(slot), weight);
}

/// Frees the slot of a joined draft, or of a message that nobody holds.
pub fn free(board: &Board, seat: &mut Place, slot: u32)
    requires seat { (seat.old.table_id ≡ board.now.shared.table_id)
        × (seat.old.me ≡ (keeping seat.old.me.0.book seat.old.me.0.kind seat.old.me.0.claim, [])) }
    requires slot { (word_of slot < board.now.shared.table_id.words) × (slot ≡ seat.old.me.0.claim.slot) }
    requires over { IsOver seat.old.me.0.kind }
    requires generation { seat.old.me.0.claim.generation < last_generation }
    ensures { (seat.new.table_id ≡ seat.old.table_id) × (seat.new.me ≡ (freed seat.old.me.0 Free 1, [])) }
{
    board
        .shared
        .fetch_add::<Frees>(seat, word_at(slot), GENERATION_UNIT);
}

/// The same, and the slot is retired.
pub fn retire(board: &Board, seat: &mut Place, slot: u32)
    requires seat { (seat.old.table_id ≡ board.now.shared.table_id)
        × (seat.old.me ≡ (keeping seat.old.me.0.book seat.old.me.0.kind seat.old.me.0.claim, [])) }
    requires slot { (word_of slot < board.now.shared.table_id.words) × (slot ≡ seat.old.me.0.claim.slot) }
    requires over { IsOver seat.old.me.0.kind }
    ensures { (seat.new.table_id ≡ seat.old.table_id) × (seat.new.me ≡ (freed seat.old.me.0 Retired 0, [])) }
{
    board.shared.load::<Retires>(seat, word_at(slot));
}
