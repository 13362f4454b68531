//! Calls on sealed messages.

ghost use Rattle.std.specs.Prelude.{◌≡◌, ℕ, ◌≤◌, ◌<◌, ◌+◌, ◌-◌, ◌/◌, ◌^◌, ◌++◌, length, take, drop, min};
ghost use Rattle.std.specs.Prelude.{slice_get, IfOk, IfErr};
ghost use Rattle.mail_world.specs.Depot.{held_under, bytes_of};
ghost use Rattle.std.specs.List.{AllByRecursion};
ghost use Rattle.block_arena.specs.Fields.{blocks_in, bytes_in, chain, node, start_of, IsPlace, IsReadable};
ghost use Rattle.block_arena.specs.Calls.{depot_key, RefusesMessage, IsMessage, MayGiveBack, IsGivenBack};

use super::*;
use crate::bookmark::Bookmark;

impl Arena {
    /// Copies the bytes from `at` to the start of `out`, as many as there are and fit, and says how many. It walks the
    /// message's blocks up to there.
    pub fn copy_out(&mut self, key: Key, at: usize, out: &mut [u8]) -> Result<usize, ArenaFault>
        ensures message { IfOk result (λ _. IsMessage (held_under self.old (depot_key key))) }
        ensures count { IfOk result
            (λ n. n ≡ min (length out.old) (length (bytes_of (held_under self.old (depot_key key))) - at)) }
        ensures bytes { IfOk result
            (λ n. out.new ≡ take n (drop at (bytes_of (held_under self.old (depot_key key)))) ++ drop n out.old) }
        ensures end { IfOk result (λ n. at + n < 2 ^ 64) }
        ensures fault { IfErr result (λ f. RefusesMessage (held_under self.old (depot_key key)) f) }
        ensures same { IfErr result (λ _. out.new ≡ out.old) }
        ensures kept { self.new ≡ self.old }
    {
        self.copy_on(key, at, &mut Bookmark::default(), out)
    }

    /// The same for a reader that keeps a bookmark: it is moved to where the reading ended, and reading on from there
    /// takes no more work than what is read. Whatever bookmark is given, the bytes are the same.
    pub fn copy_on(
        &self,
        key: Key,
        at: usize,
        mark: &mut Bookmark,
        out: &mut [u8],
    ) -> Result<usize, ArenaFault>
        ensures message { IfOk result (λ _. IsMessage (held_under self.now (depot_key key))) }
        ensures count { IfOk result
            (λ n. n ≡ min (length out.old) (length (bytes_of (held_under self.now (depot_key key))) - at)) }
        ensures bytes { IfOk result
            (λ n. out.new ≡ take n (drop at (bytes_of (held_under self.now (depot_key key)))) ++ drop n out.old) }
        ensures end { IfOk result (λ n. at + n < 2 ^ 64) }
        ensures fault { IfErr result (λ f. RefusesMessage (held_under self.now (depot_key key)) f) }
        ensures same { IfErr result (λ _. out.new ≡ out.old) }
    {
        match content_under(&self.slots, key) {
            Content::Free | Content::Retired => Err(ArenaFault::Stale),
            Content::Draft(_) => Err(ArenaFault::Draft),
            Content::Sealed(run, _) => {
                let known = start(&self.stamps, key, run, *mark);
                let from = place_at(&self.next, run, known, at / BLOCK_SIZE);
                let count = copy_run(&self.data, &self.next, run, from, at, out);
                *mark = place_at(&self.next, run, from, (at + count) / BLOCK_SIZE);
                Ok(count)
            }
        }
    }

    /// Gives k of the message's holds back, and says whether none is left. Then the message is gone.
    pub fn give_back(&mut self, key: Key, k: u32) -> Result<bool, ArenaFault>
        requires some { 1 ≤ k }
        requires holds { MayGiveBack k (held_under self.old (depot_key key)) }
        ensures done { IfOk result (λ gone. IsGivenBack k self.old (depot_key key) self.new gone) }
        ensures fault { IfErr result (λ f. RefusesMessage (held_under self.old (depot_key key)) f) }
        ensures same { IfErr result (λ _. self.new ≡ self.old) }
    {
        match content_under(&self.slots, key) {
            Content::Free | Content::Retired => Err(ArenaFault::Stale),
            Content::Draft(_) => Err(ArenaFault::Draft),
            Content::Sealed(run, holds) => {
                if k < holds {
                    self.slots[key.slot as usize] = Slot {
                        generation: key.generation,
                        content: Content::Sealed(run, holds - k),
                    };
                    Ok(false)
                } else {
                    self.release(key);
                    Ok(true)
                }
            }
        }
    }
}

/// The bookmark where the stamp of its block says that it is of the key's message, and the first block otherwise.
fn start(stamps: &[Stamp], key: Key, run: Run, mark: Bookmark) -> Bookmark
    ensures { result ≡ start_of (slice_get stamps.now mark.block) key run mark }
{
    let first = Bookmark {
        index: 0,
        block: run.first,
    };
    match stamps.get(mark.block as usize) {
        Some(stamp) => {
            if stamp.is_of(key, mark.index) {
                mark
            } else {
                first
            }
        }
        None => first,
    }
}

/// The block before which n stand, if there is one. It is looked for from a place of the run, or from its first block
/// where that place is after it.
fn place_at(next: &[u32], run: Run, from: Bookmark, n: usize) -> Bookmark
    requires low { AllByRecursion (λ b. b < length next.now) (blocks_in next.now run) }
    requires few { run.blocks ≤ BLOCK_LIMIT }
    requires from { IsPlace next.now run from }
    ensures place { IsPlace next.now run result }
    ensures there { n < run.blocks → result.index ≡ n }
{
    if run.blocks as usize <= n {
        return from;
    }
    let index = n as u32;
    if index < from.index {
        let block = block_at(next, run.first, index);
        return Bookmark { index, block };
    }
    let block = block_at(next, from.block, index - from.index);
    Bookmark { index, block }
}

/// The block n links after a block.
fn block_at(next: &[u32], first: u32, n: u32) -> u32
    requires { AllByRecursion (λ b. b < length next.now) (chain n next.now first) }
    ensures { result ≡ node n next.now first }
{
    let mut block = first;
    for i in 0..n {
        block = next[block as usize];
    }
    block
}

/// Copies a run's bytes from `at`, a block's at a time, beginning in the block at `from`.
fn copy_run(
    store: &Store,
    next: &[u32],
    run: Run,
    from: Bookmark,
    at: usize,
    out: &mut [u8],
) -> usize
    requires run { IsReadable store.now next.now run }
    requires from { IsPlace next.now run from }
    requires there { at < run.length → from.index ≡ at / BLOCK_SIZE }
    ensures count { result ≡ min (length out.old) (run.length - at) }
    ensures bytes { out.new ≡ take result (drop at (bytes_in store.now next.now run)) ++ drop result out.old }
    ensures end { at + result < 2 ^ 64 }
{
    if run.length <= at {
        return 0;
    }
    let total = out.len().min(run.length - at);
    let mut block = from.block;
    let mut skip = at % BLOCK_SIZE;
    let mut done = 0;
    while done < total {
        let n = (total - done).min(BLOCK_SIZE - skip);
        copy_piece(store.row(block), skip, n, out, done);
        done += n;
        skip = 0;
        block = next[block as usize];
    }
    total
}

/// Copies n bytes of a block to a place in `out`.
fn copy_piece(row: &[u8; BLOCK_SIZE], from: usize, n: usize, out: &mut [u8], at: usize)
    requires row { from + n ≤ length row.now }
    requires out { at + n ≤ length out.old }
    ensures { out.new ≡ take at out.old ++ take n (drop from row.now) ++ drop (at + n) out.old }
{
    out[at..at + n].copy_from_slice(&row[from..from + n]);
}
