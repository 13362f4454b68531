//! Calls on drafts.

ghost use Rattle.std.specs.Prelude.{◌≡◌, ℕ, ◌≤◌, ◌<◌, ◌+◌, ◌-◌, ◌*◌, ◌/◌, ◌%◌, ◌++◌, [], length, take, drop, IfOk};
ghost use Rattle.std.specs.Prelude.{IfErr};
ghost use Rattle.mail_world.specs.Depot.{held_under, HasRoom, Puts, Seals, Cancels};
ghost use Rattle.block_arena.specs.Calls.{depot_key, RefusesDraft, IsDraft};
ghost use Rattle.block_arena.specs.Fields.{longer, linked_run, linked_next};

use super::*;

impl Arena {
    /// Adds bytes at the draft's end.
    pub fn put(&mut self, key: Key, bytes: &[u8]) -> Result<(), ArenaFault>
        ensures done { IfOk result (λ _. Puts self.old (depot_key key) bytes.now self.new) }
        ensures fault { IfErr result
            (λ f. RefusesDraft (¬ HasRoom self.old (depot_key key) bytes.now) (held_under self.old (depot_key key)) f) }
        ensures same { IfErr result (λ _. self.new ≡ self.old) }
    {
        match content_under(&self.slots, key) {
            Content::Free | Content::Retired => Err(ArenaFault::Stale),
            Content::Sealed(..) => Err(ArenaFault::Sealed),
            Content::Draft(run) => {
                if room(run, self.free_count) < bytes.len() {
                    return Err(ArenaFault::Full);
                }
                self.put_all(key, bytes);
                Ok(())
            }
        }
    }

    /// Ends the draft with n holds.
    pub fn seal(&mut self, key: Key, n: u32) -> Result<(), ArenaFault>
        requires { 1 ≤ n }
        ensures done { IfOk result (λ _. Seals self.old (depot_key key) n self.new) }
        ensures fault { IfErr result (λ f. RefusesDraft ⊥ (held_under self.old (depot_key key)) f) }
        ensures same { IfErr result (λ _. self.new ≡ self.old) }
    {
        match content_under(&self.slots, key) {
            Content::Free | Content::Retired => Err(ArenaFault::Stale),
            Content::Sealed(..) => Err(ArenaFault::Sealed),
            Content::Draft(run) => {
                self.slots[key.slot as usize] = Slot {
                    generation: key.generation,
                    content: Content::Sealed(run, n),
                };
                Ok(())
            }
        }
    }

    /// Drops the draft: its blocks are free, and its key is spent.
    pub fn drop_draft(&mut self, key: Key) -> Result<(), ArenaFault>
        ensures done { IfOk result (λ _. Cancels self.old (depot_key key) self.new) }
        ensures fault { IfErr result (λ f. RefusesDraft ⊥ (held_under self.old (depot_key key)) f) }
        ensures same { IfErr result (λ _. self.new ≡ self.old) }
    {
        match content_under(&self.slots, key) {
            Content::Free | Content::Retired => Err(ArenaFault::Stale),
            Content::Sealed(..) => Err(ArenaFault::Sealed),
            Content::Draft(_) => {
                self.release(key);
                Ok(())
            }
        }
    }

    /// Adds bytes for which there is room.
    fn put_all(&mut self, key: Key, bytes: &[u8])
        requires none { Puts self.old (depot_key key) [] self.old }
        requires room { HasRoom self.old (depot_key key) bytes.now }
        ensures { Puts self.old (depot_key key) bytes.now self.new }
    {
        let mut done = 0;
        while done < bytes.len() {
            done += self.put_piece(key, &bytes[done..]);
        }
    }

    /// Adds as many of the bytes as fit in one block: the run's last one, or a free one where that is full.
    fn put_piece(&mut self, key: Key, bytes: &[u8]) -> usize
        requires draft { IsDraft (held_under self.old (depot_key key)) }
        requires some { 0 < length bytes.now }
        requires room { HasRoom self.old (depot_key key) bytes.now }
        ensures some { 0 < result }
        ensures within { result ≤ length bytes.now }
        ensures put { Puts self.old (depot_key key) (take result bytes.now) self.new }
        ensures room { HasRoom self.new (depot_key key) (drop result bytes.now) }
    {
        let run = run_in(content_under(&self.slots, key));
        let at = run.length % BLOCK_SIZE;
        let n = bytes.len().min(BLOCK_SIZE - at);
        if at > 0 {
            self.data.fill(run.last, at, &bytes[..n]);
            self.slots[key.slot as usize] = longer_draft(key, run, n);
            return n;
        }
        let block = self.free;
        self.data.fill(block, 0, &bytes[..n]);
        self.stamps[block as usize] = Stamp {
            slot: key.slot,
            index: run.blocks,
            generation: key.generation,
        };
        self.free = self.next[block as usize];
        self.free_count -= 1;
        let run = link(&mut self.next, run, block);
        self.slots[key.slot as usize] = longer_draft(key, run, n);
        n
    }
}

/// How many more bytes the run can take.
fn room(run: Run, free_count: u32) -> usize
    requires few { run.blocks + free_count ≤ BLOCK_LIMIT }
    requires enough { run.length ≤ BLOCK_SIZE * run.blocks }
    ensures { result ≡ BLOCK_SIZE * (run.blocks + free_count) - run.length }
{
    BLOCK_SIZE * (run.blocks + free_count) as usize - run.length
}

/// The slot of a draft that has n more bytes.
fn longer_draft(key: Key, run: Run, n: usize) -> Slot
    requires { run.length + n ≤ usize.MAX }
    ensures { result ≡ record { generation = key.generation; content = Content.Draft (longer run n) } }
{
    Slot {
        generation: key.generation,
        content: Content::Draft(Run {
            length: run.length + n,
            ..run
        }),
    }
}

/// Puts a block after the run.
fn link(next: &mut Vec<u32>, run: Run, block: u32) -> Run
    requires last { 0 < run.blocks → run.last < length next.old.items }
    requires few { run.blocks < BLOCK_LIMIT }
    ensures run { result ≡ linked_run run block }
    ensures next { next.new.items ≡ linked_next next.old.items run block }
{
    if run.blocks == 0 {
        return Run {
            first: block,
            last: block,
            blocks: 1,
            length: run.length,
        };
    }
    next[run.last as usize] = block;
    Run {
        last: block,
        blocks: run.blocks + 1,
        ..run
    }
}
