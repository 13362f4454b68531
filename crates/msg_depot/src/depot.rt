//! The depot: the keeper under a lock, and beside it the words on which holds are split and released without the lock.

ghost use Rattle.std.specs.Prelude.{◌≡◌, ◌+◌, ◌-◌, ◌^◌, ◌*◌, ◌<◌, ◌≤◌, ◌++◌, [], length, take, drop, min, replicate};
ghost use Rattle.std.specs.Prelude.{IfOk, IfErr, IfSome};
ghost use Rattle.mail_world.specs.Depot.{last_generation, Free};
ghost use Rattle.msg_depot.specs.Rules.{word_of};

use crate::hold;
use crate::keeper::{Keeper, NoRoom};
use crate::token::{Board, DepotName, Draft, Hold, Place, Spent};
use crate::view::Opening;
use crate::words::words_for;
use block_arena::Arena;
use mail_world::limits::{BLOCK_LIMIT, RECIPIENT_LIMIT, SLOT_LIMIT};
use std::alloc::{AllocError, Global};
use std::marker::{Model, PhantomData};
use std::sync::{Mutex, Wait};

/// A depot that has no name yet. Contracts see which table it has, and what lies in its arena.
#[derive(Drop)]
pub struct Blank {
    board: Board,
    arena: Arena,
    seat: Place,
}

impl Model for Blank {
    ghost use Rattle.msg_depot.specs.Entries.{Unnamed, IsKeeper};

    ghost Value = { Unnamed };

    ghost view = { λ b. record { table = b.board.shared.table_id; depot = b.arena } };

    ghost invariant = { λ b. IsKeeper b.board.shared.table_id b.seat.table_id b.seat.me b.arena };
}

impl Blank {
    /// Free blocks and free slots, which take all the memory that the depot will ever have.
    pub fn new(alloc: Global, blocks: u32, slots: u32) -> Result<Blank, AllocError>
        requires blocks { (1 ≤ blocks) × (blocks ≤ BLOCK_LIMIT) }
        requires slots { (1 ≤ slots) × (slots ≤ SLOT_LIMIT) }
        ensures slots { IfOk result (λ b. b.depot.slots ≡ replicate slots (record { generation = 0; held = Free })) }
        ensures free { IfOk result (λ b. length b.depot.free ≡ blocks) }
        ensures words { IfOk result (λ b. b.table.words ≡ word_of slots) }
    {
        Blank::new_at(alloc, blocks, slots, 0)
    }

    /// The same with the generation at which every slot begins.
    pub fn new_at(
        alloc: Global,
        blocks: u32,
        slots: u32,
        generation: u64,
    ) -> Result<Blank, AllocError>
        requires blocks { (1 ≤ blocks) × (blocks ≤ BLOCK_LIMIT) }
        requires slots { (1 ≤ slots) × (slots ≤ SLOT_LIMIT) }
        requires generation { generation ≤ last_generation }
        ensures slots { IfOk result
            (λ b. b.depot.slots ≡ replicate slots (record { generation = generation; held = Free })) }
        ensures free { IfOk result (λ b. length b.depot.free ≡ blocks) }
        ensures words { IfOk result (λ b. b.table.words ≡ word_of slots) }
    {
        let arena = Arena::new_at(alloc, blocks, slots, generation)?;
        let words = words_for(alloc, slots, generation)?;
        let opening = Opening { slots, generation };
        let (board, seat) = Board::of_words(alloc, words.as_slice(), &opening)?;
        Ok(Blank { board, arena, seat })
    }

    /// The depot under a name.
    pub fn open<N: DepotName>(self) -> Depot<N>
        requires { self.table ≡ N.table }
    {
        let Blank { board, arena, seat } = self;
        Depot {
            board,
            keeper: Mutex::new(Keeper::new(arena, seat)),
        }
    }
}

/// Messages that threads write, hold and read. A token that is dropped keeps its message in use for good.
#[derive(Drop)]
pub struct Depot<N: DepotName> {
    board: Board,
    keeper: Mutex<Keeper<N>>,
    ghost named: { board.shared.table_id ≡ N.table },
}

impl<N: DepotName> Depot<N> {
    /// A draft without bytes. No room is where every slot is in use or retired.
    pub fn draft(&self, rt: &impl Wait) -> Result<Draft<N>, NoRoom>
        ensures { IfOk result (λ d. (d.bytes ≡ []) × (d.weight ≡ 0)) }
    {
        self.keeper.lock(rt).draft(&self.board)
    }

    /// Adds bytes at the draft's end. No room is where too few blocks are free.
    pub fn put(&self, rt: &impl Wait, draft: &mut Draft<N>, piece: &[u8]) -> Result<(), NoRoom>
        ensures longer { IfOk result (λ _. draft.new.bytes ≡ draft.old.bytes ++ piece.now) }
        ensures same { IfErr result (λ _. draft.new ≡ draft.old) }
    {
        self.keeper.lock(rt).put(&self.board, draft, piece)
    }

    /// Ends the draft with this many holds.
    pub fn seal(&self, rt: &impl Wait, draft: Draft<N>, n: u32) -> Hold<N>
        requires n { (1 ≤ n) × (n ≤ RECIPIENT_LIMIT) }
        ensures { (result.bytes ≡ draft.bytes) × (result.weight ≡ n) }
    {
        self.keeper.lock(rt).seal(&self.board, draft, n)
    }

    /// Gives the blocks of a draft back.
    pub fn cancel(&self, rt: &impl Wait, draft: Draft<N>) {
        self.keeper.lock(rt).cancel(&self.board, draft);
    }

    /// The bytes that were sealed, from `at`, as many as there are and fit.
    pub fn read(&self, rt: &impl Wait, hold: &mut Hold<N>, at: usize, out: &mut [u8]) -> usize
        ensures count { result ≡ min (length out.old) (length hold.old.bytes - at) }
        ensures bytes { take result out.new ≡ take result (drop at hold.old.bytes) }
        ensures end { at + result < 2 ^ 64 }
        ensures rest { drop result out.new ≡ drop result out.old }
        ensures length { length out.new ≡ length out.old }
        ensures same { hold.new ≡ hold.old }
    {
        self.keeper.lock(rt).read(&self.board, hold, at, out)
    }

    /// Cuts a hold of weight 1 off. It waits for nobody.
    pub fn split_one(&self, hold: &mut Hold<N>) -> Hold<N>
        requires more { 1 < hold.old.weight }
        ensures new { (result.bytes ≡ hold.old.bytes) × (result.weight ≡ 1) }
        ensures left { (hold.new.bytes ≡ hold.old.bytes) × (hold.new.weight + 1 ≡ hold.old.weight) }
    {
        hold::split_one(&self.board, hold)
    }

    /// Gives a hold of weight 1 up, by one step, and waits for nobody. The last one gives what gives the blocks back.
    pub fn release(&self, hold: Hold<N>) -> Option<Spent<N>>
        requires one { hold.weight ≡ 1 }
        ensures spent { IfSome result
            (λ s. (s.slot ≡ hold.slot) × (s.generation ≡ hold.generation) × (s.bytes ≡ hold.bytes)) }
    {
        hold::release(&self.board, hold)
    }

    /// Gives the blocks of a message back that nobody holds.
    pub fn reclaim(&self, rt: &impl Wait, spent: Spent<N>) {
        self.keeper.lock(rt).reclaim(&self.board, spent);
    }

    /// How many blocks are free.
    pub fn free_blocks(&self, rt: &impl Wait) -> u32 {
        self.keeper.lock(rt).free_blocks()
    }
}
