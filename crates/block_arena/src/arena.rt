//! The arena: its blocks, their chains, and the slots of its messages.

ghost use Rattle.std.specs.Prelude.{◌≡◌, ◌≤◌, ◌<◌, length, replicate, Some, IfOk, IfSome, IfNone};
ghost use Rattle.std.specs.List.{AllByRecursion};
ghost use Rattle.mail_world.specs.Depot.{held_under, weight_under, bytes_of, last_generation, HasEachBlockOnce, Begins};
ghost use Rattle.mail_world.specs.Depot as depot;
ghost use Rattle.std.specs.List.{position};
ghost use Rattle.block_arena.specs.declared.slot.Slot.{Slot};
ghost use Rattle.block_arena.specs.Fields.{is_free, links, slot_after};
ghost use Rattle.block_arena.specs.Calls.{depot_key, IsUsed, IsInUse, Frees};

use crate::fault::ArenaFault;
use crate::key::Key;
use crate::slot::{Content, EMPTY, Run, Slot, Stamp, UNUSED, content_under, run_in};
use crate::store::Store;
use mail_world::limits::{BLOCK_LIMIT, BLOCK_SIZE, LAST_GENERATION, SLOT_LIMIT};
use std::alloc::{AllocError, Global};
use std::marker::Model;

mod drafts;
mod messages;
/// Messages in blocks. Contracts see the depot of the definitions: what each slot holds, and the blocks that are free.
#[derive(Drop)]
pub struct Arena {
    data: Store,
    next: Vec<u32>,
    stamps: Vec<Stamp>,
    slots: Vec<Slot>,
    free: u32,
    free_count: u32,
}

impl Model for Arena {
    ghost use Rattle.mail_world.specs.Depot.{Depot};

    ghost Value = { Depot };

    ghost use Rattle.block_arena.specs.ArenaParts.{fields_of};
    ghost use Rattle.block_arena.specs.Fields.{depot_of, IsArena};

    ghost view = { λ a. depot_of (fields_of a) };

    ghost invariant = { λ a. IsArena (fields_of a) };
}

impl Arena {
    /// An arena of free blocks and free slots. It takes all the memory that it will ever have, and touches no block's
    /// before that block is used.
    pub fn new(alloc: Global, blocks: u32, slots: u32) -> Result<Arena, AllocError>
        requires some_block { 1 ≤ blocks }
        requires few_blocks { blocks ≤ BLOCK_LIMIT }
        requires some_slot { 1 ≤ slots }
        requires few_slots { slots ≤ SLOT_LIMIT }
        ensures slots { IfOk result (λ d. d.slots ≡ replicate slots (record { generation = 0; held = depot.Free })) }
        ensures free { IfOk result (λ d. length d.free ≡ blocks) }
        ensures once { IfOk result (λ d. HasEachBlockOnce blocks d) }
    {
        Arena::new_at(alloc, blocks, slots, 0)
    }

    /// The same with the generation at which every slot begins.
    pub fn new_at(
        alloc: Global,
        blocks: u32,
        slots: u32,
        generation: u64,
    ) -> Result<Arena, AllocError>
        requires some_block { 1 ≤ blocks }
        requires few_blocks { blocks ≤ BLOCK_LIMIT }
        requires some_slot { 1 ≤ slots }
        requires few_slots { slots ≤ SLOT_LIMIT }
        requires generation { generation ≤ last_generation }
        ensures slots { IfOk result
            (λ d. d.slots ≡ replicate slots (record { generation = generation; held = depot.Free })) }
        ensures free { IfOk result (λ d. length d.free ≡ blocks) }
        ensures once { IfOk result (λ d. HasEachBlockOnce blocks d) }
    {
        let data = Store::new(alloc, blocks)?;
        let next = counted(alloc, blocks)?;
        let stamps = unused(alloc, blocks)?;
        let free_slot = Slot {
            generation,
            content: Content::Free,
        };
        let slots = vec![in alloc; free_slot; slots as usize]?;
        Ok(Arena {
            data,
            next,
            stamps,
            slots,
            free: 0,
            free_count: blocks,
        })
    }

    /// How many blocks are free.
    pub fn free_blocks(&self) -> u32
        ensures { result ≡ length self.now.free }
    {
        self.free_count
    }

    /// How many bytes lie under the key: none where it is stale.
    pub fn length(&self, key: Key) -> usize
        ensures { result ≡ length (bytes_of (held_under self.now (depot_key key))) }
    {
        match content_under(&self.slots, key) {
            Content::Draft(run) => run.length,
            Content::Sealed(run, _) => run.length,
            Content::Free | Content::Retired => 0,
        }
    }

    /// How many holds the message has: none where the key is stale or a draft's.
    pub fn holds(&self, key: Key) -> u32
        ensures { result ≡ weight_under self.now (depot_key key) }
    {
        match content_under(&self.slots, key) {
            Content::Sealed(_, holds) => holds,
            Content::Free | Content::Draft(_) | Content::Retired => 0,
        }
    }

    /// A new draft, without blocks, unless every slot is in use or retired.
    pub fn begin(&mut self) -> Option<Key>
        ensures some { IfSome result (λ key. Begins self.old (depot_key key) self.new) }
        ensures none { IfNone result (AllByRecursion (λ (slot : depot.Slot). IsUsed slot.held) self.old.slots) }
        ensures same { IfNone result (self.new ≡ self.old) }
    {
        match free_slot(&self.slots) {
            None => None,
            Some(slot) => {
                let generation = self.slots[slot].generation;
                self.slots[slot] = Slot {
                    generation,
                    content: Content::Draft(EMPTY),
                };
                Some(Key {
                    slot: slot as u32,
                    generation,
                })
            }
        }
    }

    /// Takes the key's slot and blocks back: the blocks go to the head of the free ones, by one link.
    fn release(&mut self, key: Key)
        requires { IsInUse (held_under self.old (depot_key key)) }
        ensures { Frees self.old (depot_key key) self.new }
    {
        let run = run_in(content_under(&self.slots, key));
        let slot = released_slot(key.generation);
        if run.blocks == 0 {
            self.slots[key.slot as usize] = slot;
            return;
        }
        self.next[run.last as usize] = self.free;
        self.free = run.first;
        self.free_count += run.blocks;
        self.slots[key.slot as usize] = slot;
    }
}

/// The slot after a message of that generation.
fn released_slot(generation: u64) -> Slot
    requires { generation ≤ last_generation }
    ensures { result ≡ slot_after generation }
{
    if generation < LAST_GENERATION {
        Slot {
            generation: generation + 1,
            content: Content::Free,
        }
    } else {
        Slot {
            generation,
            content: Content::Retired,
        }
    }
}

/// The numbers from 1, each block's next one at first.
#[tactic(auto, using(crate::proofs::Made::links_next))]
fn counted(alloc: Global, blocks: u32) -> Result<Vec<u32>, AllocError>
    ensures { IfOk result (λ v. v.items ≡ links 1 blocks) }
{
    let mut next = Vec::with_capacity(alloc, blocks as usize)?;
    for block in 0..blocks {
        next.push(block + 1)?;
    }
    Ok(next)
}

/// The stamps of blocks that were never handed out.
#[tactic(auto, using(crate::proofs::Made::same_next))]
fn unused(alloc: Global, blocks: u32) -> Result<Vec<Stamp>, AllocError>
    ensures { IfOk result (λ v. v.items ≡ replicate blocks UNUSED) }
{
    let mut stamps = Vec::with_capacity(alloc, blocks as usize)?;
    for block in 0..blocks {
        stamps.push(UNUSED)?;
    }
    Ok(stamps)
}

/// The first slot that is free.
fn free_slot(slots: &[Slot]) -> Option<usize>
    ensures { result ≡ position (λ (slot : Slot). is_free slot.content) slots.now }
{
    slots
        .iter()
        .position(|slot| matches!(slot.content, Content::Free))
}
