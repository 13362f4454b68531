//! A spool in memory, with a bound on what it takes.
ghost use Rattle.std.specs.Prelude.{◌≡◌, ◌↔◌, ◌||◌, ◌+◌, ◌-◌, ◌^◌, ◌<◌, ◌≤◌, ◌++◌, length, take, min, is_err};
ghost use Rattle.std.specs.Prelude.{IsErr, IfOk, IfErr, OnOk, OnErr, Ok, Err, true, false};
ghost use Rattle.mail_world.specs.Counts.{counted};
ghost use Rattle.mail_world.specs.Endings.{ending};
ghost use Rattle.mbox_spool.specs.MemorySpool.{unused, standing_of, state_of, fault_in};
ghost use Rattle.mbox_spool.specs.Spool.{SpoolTook, SpoolFailed, HasSynced, HasNotSynced};
ghost use Rattle.mbox_spool.specs.Spool.{standing, AsksForTurn, EndsTurn};
ghost use Rattle.mbox_spool.specs.Tail.{ending_of};
ghost use Rattle.mbox_spool.specs.TurnLog.{begun_at, ended_at, missed};
ghost use Rattle.mbox_spool.specs.TurnState.{knows_end};

use crate::spool::{InUse, Spool, SpoolFault};
use crate::tail::{Tail, tail_of};
use crate::turns::Turns;
use std::alloc::{AllocError, Global};
use std::io::ErrorKind;
use std::marker::{Brand, Model};

/// A spool that holds its bytes in memory, and fails once its room is used up. Nobody else changes it, and after the
/// turn in which it failed it has no other.
#[derive(Drop)]
pub struct MemorySpool {
    bytes: Vec<u8>,
    room: usize,
    failures: u64,
    synced: usize,
    in_turn: bool,
    has_failed: bool,
    is_unsynced: bool,
    refusals: u64,
    turns: Turns,
}

impl Model for MemorySpool {
    ghost use Rattle.std.specs.Prelude.{◌+◌, ◌≤◌, vec_len, vec_capacity};
    ghost use Rattle.mbox_spool.specs.MemorySpool.{MemorySpool as Held, IsInOrder};

    ghost Value = { Held };

    ghost view = { λ s. record {
      bytes = s.bytes.items;
      room = s.room;
      failures = s.failures;
      synced = s.synced;
      in_turn = s.in_turn;
      has_failed = s.has_failed;
      is_unsynced = s.is_unsynced;
      refusals = s.refusals;
      log = s.turns.log;
    } };

    ghost invariant = { λ s. (vec_len s.bytes + s.room ≤ vec_capacity s.bytes)
        × IsInOrder (record {
          bytes = s.bytes.items;
          room = s.room;
          failures = s.failures;
          synced = s.synced;
          in_turn = s.in_turn;
          has_failed = s.has_failed;
          is_unsynced = s.is_unsynced;
          refusals = s.refusals;
          log = s.turns.log;
        }) };
}

impl MemorySpool {
    /// Holds the old bytes and reserves the room, so that no append takes memory.
    pub fn new(alloc: Global, old: &[u8], room: usize) -> Result<MemorySpool, AllocError>
        ensures { IfOk result (λ spool. spool ≡ unused old.now room) }
    {
        let mut bytes = Vec::from_slice(alloc, old)?;
        bytes.reserve(room)?;
        Ok(MemorySpool {
            bytes,
            room,
            failures: 0,
            synced: 0,
            in_turn: false,
            has_failed: false,
            is_unsynced: false,
            refusals: 0,
            turns: Turns::none(),
        })
    }

    /// All that it holds, the old bytes first.
    pub fn bytes(&self) -> &[u8]
        ensures { result.now ≡ self.now.bytes }
    {
        self.bytes.as_slice()
    }

    // Lists that a turn begins here.
    fn begin(&mut self)
        requires free { self.old.in_turn ≡ false }
        requires sound { self.old.has_failed ≡ false }
        ensures { self.new ≡ record self.old {
          in_turn = true;
          is_unsynced = false;
          log = begun_at self.old.log (standing_of self.old);
        } }
    {
        let turns = Turns::after::<Brand, MemorySpool>(&self.turns, self, self.failures);
        self.turns = turns;
        self.in_turn = true;
        self.is_unsynced = false;
    }

    // Counts a missed turn.
    fn refuse(&mut self, in_use: InUse) -> Result<u64, InUse>
        ensures result { result ≡ Err in_use }
        ensures new { self.new ≡ record self.old {
          refusals = counted (self.old.refusals + 1);
          log = missed self.old.log;
        } }
    {
        self.refusals = self.refusals.saturating_add(1);
        self.turns.miss();
        Err(in_use)
    }

    // Why an append fails. In a turn there is no room.
    fn reason(&self) -> SpoolFault
        ensures { result ≡ fault_in self.now.in_turn self.now.has_failed }
    {
        if self.in_turn && !self.has_failed {
            SpoolFault::Other(ErrorKind::StorageFull)
        } else {
            SpoolFault::NoTurn
        }
    }

    // Counts a failure.
    fn fail(&mut self) -> SpoolFault
        requires full { self.old.in_turn ≡ true → self.old.room ≡ 0 }
        ensures reason { result ≡ fault_in self.old.in_turn self.old.has_failed }
        ensures new { self.new ≡ record self.old {
          failures = min (self.old.failures + 1) (2 ^ 64 - 1);
          has_failed = self.old.has_failed || self.old.in_turn;
        } }
    {
        let fault = self.reason();
        self.failures = self.failures.saturating_add(1);
        self.has_failed = self.has_failed || self.in_turn;
        fault
    }
}

impl Spool for MemorySpool {
    ghost state = { λ s. state_of s };

    ghost MayFind = { λ last now. now ≡ last };

    ghost MayRefuse = { λ broke refused. refused ≡ broke };

    fn lock(&mut self) -> Result<u64, InUse>
        ensures in_turn { self.old.in_turn ≡ true → result ≡ Err InUse.Locked }
        ensures failed { self.old.in_turn ≡ false → self.old.has_failed ≡ true → result ≡ Err InUse.Failed }

        // what every spool ensures
        ensures asks { AsksForTurn (⟦<MemorySpool as Spool>⟧.state self.old)
            (⟦<MemorySpool as Spool>⟧.state self.new) result }
        ensures found { (⟦<MemorySpool as Spool>⟧.state self.old).turn.in_turn ≡ false
            → standing (⟦<MemorySpool as Spool>⟧.state self.new) ≡ standing (⟦<MemorySpool as Spool>⟧.state self.old) }
        ensures refused { (⟦<MemorySpool as Spool>⟧.state self.old).turn.in_turn ≡ false
            → is_err result ≡ (⟦<MemorySpool as Spool>⟧.state self.old).turn.has_failed }
    {
        if self.in_turn {
            return self.refuse(InUse::Locked);
        }
        if self.has_failed {
            return self.refuse(InUse::Failed);
        }
        self.begin();
        Ok(self.bytes.len() as u64)
    }

    /// The bytes stay, whatever failed.
    fn unlock(&mut self)
        ensures outside { self.old.in_turn ≡ false → self.new ≡ self.old }
        ensures ends { self.old.in_turn ≡ true → self.new ≡ record self.old {
          in_turn = false;
          log = ended_at self.old.log (standing_of self.old);
        } }

        // what every spool ensures
        ensures none { (⟦<MemorySpool as Spool>⟧.state self.old).turn.in_turn ≡ false
            → ⟦<MemorySpool as Spool>⟧.state self.new ≡ ⟦<MemorySpool as Spool>⟧.state self.old }
        ensures over { (⟦<MemorySpool as Spool>⟧.state self.old).turn.in_turn ≡ true
            → EndsTurn (⟦<MemorySpool as Spool>⟧.state self.old) (⟦<MemorySpool as Spool>⟧.state self.new) }
    {
        if !self.in_turn {
            return;
        }
        let turns = Turns::after::<Brand, MemorySpool>(&self.turns, self, self.failures);
        self.turns = turns;
        self.in_turn = false;
    }

    /// Takes as much as there is room for, and fails where there is none.
    fn append(&mut self, piece: &[u8]) -> Result<usize, SpoolFault>
        requires { 0 < length piece.now }
        ensures full { self.old.in_turn ≡ true → IsErr result ↔ (self.old.room ≡ 0) }
        ensures reason { IfErr result (λ fault. fault ≡ fault_in self.old.in_turn self.old.has_failed) }
        ensures size { IfOk result (λ n. n ≡ min (length piece.now) self.old.room) }
        ensures new { IfOk result (λ n. self.new ≡ record self.old {
          bytes = self.old.bytes ++ take n piece.now;
          room = self.old.room - n;
          is_unsynced = true;
        }) }
        ensures failed { OnErr result (self.new ≡ record self.old {
          failures = min (self.old.failures + 1) (2 ^ 64 - 1);
          has_failed = self.old.has_failed || self.old.in_turn;
        }) }

        // what every spool ensures
        ensures within { IfOk result (λ n. (1 ≤ n) × (n ≤ length piece.now)) }
        ensures ok { IfOk result
            (λ n. SpoolTook (⟦<MemorySpool as Spool>⟧.state self.old) (⟦<MemorySpool as Spool>⟧.state self.new)
            (take n piece.now)) }
        ensures err { OnErr result
            (SpoolFailed (⟦<MemorySpool as Spool>⟧.state self.old)
            (⟦<MemorySpool as Spool>⟧.state self.new) piece.now) }
        ensures unsynced { OnOk result ((⟦<MemorySpool as Spool>⟧.state self.new).turn.is_unsynced ≡ true) }
        ensures outside { (⟦<MemorySpool as Spool>⟧.state self.old).turn.in_turn ≡ false → IsErr result
            × ((⟦<MemorySpool as Spool>⟧.state self.new).bytes ≡ (⟦<MemorySpool as Spool>⟧.state self.old).bytes) }
    {
        if !self.in_turn || self.room == 0 {
            return Err(self.fail());
        }
        let n = piece.len().min(self.room);
        if self.bytes.extend_from_slice(&piece[..n]).is_err() {
            unreachable!();
        }
        self.room -= n;
        self.is_unsynced = true;
        Ok(n)
    }

    /// Covers all that it holds, in a turn.
    fn sync(&mut self) -> Result<(), SpoolFault>
        ensures sound { self.old.in_turn ≡ true → result ≡ Ok (record {}) }
        ensures no_turn { self.old.in_turn ≡ false → result ≡ Err SpoolFault.NoTurn }
        ensures new { OnOk result (self.new
            ≡ record self.old { synced = length self.old.bytes; is_unsynced = false }) }

        // what every spool ensures
        ensures ok { OnOk result
            (HasSynced (⟦<MemorySpool as Spool>⟧.state self.old) (⟦<MemorySpool as Spool>⟧.state self.new)) }
        ensures err { OnErr result
            (HasNotSynced (⟦<MemorySpool as Spool>⟧.state self.old) (⟦<MemorySpool as Spool>⟧.state self.new)) }
        ensures outside { (⟦<MemorySpool as Spool>⟧.state self.old).turn.in_turn ≡ false → IsErr result }
    {
        if !self.in_turn {
            return Err(self.fail());
        }
        self.synced = self.bytes.len();
        self.is_unsynced = false;
        Ok(())
    }

    fn tail(&self) -> Tail
        ensures end { ending_of result ≡ ending self.now.bytes }

        // what every spool ensures
        ensures known { knows_end (⟦<MemorySpool as Spool>⟧.state self.now).turn ≡ true
            → ending_of result ≡ ending (⟦<MemorySpool as Spool>⟧.state self.now).bytes }
    {
        tail_of(&self.bytes)
    }
}
