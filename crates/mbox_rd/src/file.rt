//! A mailbox in a file, which other programs read and empty too: it takes bytes in turns, and what stands there is
//! looked at again in each. Nothing of it lasts from one turn to the next but its file and whether the last turn broke.
ghost use Rattle.std.specs.Prelude.{◌≡◌, ◌≢◌, ◌<◌, ◌≤◌, ◌-◌, ◌⊎◌, ℕ, List, [], ◌∷◌, ◌++◌, true, false, length, take};
ghost use Rattle.std.specs.Prelude.{drop, ⊤, Ok, Err, IsErr, IfOk, IfErr, OnOk, OnErr};
ghost use Rattle.mail_world.specs.Endings.{ending, ending_from};
ghost use Rattle.mail_world.specs.Failures.{Rises};
ghost use Rattle.mail_world.specs.Prefixes.{IsPrefix};
ghost use Rattle.mbox_spool.specs.Lines.{HasLines};
ghost use Rattle.mbox_spool.specs.Quoted.{quoted_owed};
ghost use Rattle.mbox_spool.specs.Spool.{SpoolTook, SpoolFailed, HasSynced, HasNotSynced, AsksForTurn, EndsTurn};
ghost use Rattle.mbox_spool.specs.Tail.{ending_of};
ghost use Rattle.mbox_spool.specs.TurnState.{knows_end};
ghost use Rattle.mbox_spool.specs.Writing.{Writes};
ghost use Rattle.mbox_spool.specs.declared.pending.Pending.TheVariants.{Inside};
ghost use Rattle.mbox_file.specs.MailboxFile.{IsHeld, at_now};
ghost use Rattle.mbox_file.specs.Moment.{LeavesOne, LeavesAt};
ghost use Rattle.mbox_rd.specs.Moments.{LeavesOnly};

mod turn_buffer;
mod waiting;

use crate::patience::Patience;
use crate::shared_buffer::SharedBuffer;
use crate::turn::{end_turn, open_anew, wait_for_turn};
use mbox_file::{FileEnd, MailboxFile};
use mbox_spool::{InUse, Spool, SpoolFault, Tail, Turns, tail_after};
use std::alloc::{AllocError, Global};
use std::marker::{Brand, Model};
use std::sync::Arc;
use std::time::Clock;
use turn_buffer::TurnBuffer;

/// A spool over a file, which other programs read and empty too. In a turn it has both locks that mail programs take,
/// and what it takes waits in a buffer, which it shares with others, until that is full, at a multiple of 262,144 bytes
/// of the file, or until a sync.
/// A turn in which a call failed is broken: each further append and sync in it is a fault, and as it ends the file is
/// cut back to its length at the lock. The next lock opens what the path names again, and goes on with what stands
/// there. The first lock, and each after one that couldn't be cut back for good, has the file kept before anything is
/// appended, until it is.
#[derive(Drop)]
pub struct FileSpool<F: MailboxFile + Drop, C: Clock + Drop> {
    file: F,
    clock: C,
    patience: Patience,
    waiting: TurnBuffer,
    buffer: Arc<SharedBuffer>,
    began: u64,
    tail: Tail,
    // its locks were taken before a turn is asked for, and it was so long then, and ended so
    is_ready: bool,
    failures: u64,
    refusals: u64,
    // why what was cut off couldn't be kept so at this turn's lock
    unkept: SpoolFault,
    // fields lie in memory as they stand here: these fill eight bytes
    wait: u32,
    in_turn: bool,
    has_failed: bool,
    is_unsynced: bool,
    is_unsettled: bool,
    turns: Turns,
}

impl<F: MailboxFile + Drop, C: Clock + Drop> Model for FileSpool<F, C> {
    ghost use Rattle.mbox_rd.specs.FileSpool.{FileSpool as Held, IsInOrder};

    ghost Value = { Held F };

    ghost view = { λ s. record {
      file = s.file;
      wait = s.wait;
      patience = s.patience;
      is_ready = s.is_ready;
      waiting = s.waiting;
      in_turn = s.in_turn;
      has_failed = s.has_failed;
      is_unsynced = s.is_unsynced;
      is_unsettled = s.is_unsettled;
      began = s.began;
      tail = s.tail;
      failures = s.failures;
      refusals = s.refusals;
      log = s.turns.log;
    } };

    ghost invariant = { λ s. IsInOrder F.state (record {
      file = s.file;
      wait = s.wait;
      patience = s.patience;
      is_ready = s.is_ready;
      waiting = s.waiting;
      in_turn = s.in_turn;
      has_failed = s.has_failed;
      is_unsynced = s.is_unsynced;
      is_unsettled = s.is_unsettled;
      began = s.began;
      tail = s.tail;
      failures = s.failures;
      refusals = s.refusals;
      log = s.turns.log;
    }) };
}

impl<F: MailboxFile + Drop, C: Clock + Drop> FileSpool<F, C> {
    ghost use Rattle.mbox_rd.specs.FileSpool.{IsOpened};

    /// Over a file with neither lock held. Within a minute locks wait that many seconds for other programs in all,
    /// 3,600 at most; 0 is one try each. Its first turn has the file kept before anything is appended, since a process
    /// that was killed may have cut it and not have had that kept. Its turns have the shared buffer. From here on it
    /// takes no memory.
    pub fn new(
        alloc: Global,
        file: F,
        clock: C,
        wait: u32,
        buffer: Arc<SharedBuffer>,
    ) -> Result<FileSpool<F, C>, AllocError>
        ensures opened { IfOk result (IsOpened F.state) }
        ensures file { IfOk result (λ spool. spool.file ≡ file) }
        ensures wait { IfOk result (λ spool. spool.wait ≡ wait) }
    {
        let waiting = TurnBuffer::new(alloc)?;
        let none = Turns::none();
        let turns = Turns::after::<Brand, F>(&none, &file, 0);
        Ok(FileSpool {
            file,
            clock,
            wait,
            patience: Patience::new(),
            waiting,
            buffer,
            began: 0,
            tail: Tail::Empty,
            is_ready: false,
            failures: 0,
            refusals: 0,
            in_turn: false,
            has_failed: false,
            is_unsynced: false,
            is_unsettled: true,
            unkept: SpoolFault::NoTurn,
            turns,
        })
    }
}

impl<F: MailboxFile + Drop, C: Clock + Drop> FileSpool<F, C> {
    ghost use Rattle.mbox_file.specs.MailboxFile.{IsEnd};
    ghost use Rattle.mbox_rd.specs.Turn.{HasBegun, HasMissed, IsUntouched, StaysThere, OpensAfter};
    ghost use Rattle.mbox_rd.specs.FileSpool.{StartsTurn, CountsRefusal, failed_again};
    ghost use Rattle.mbox_rd.specs.Patience.{HasPaused, HasWaited, IsGivenUp, IsTimeOver, IsUnpaused, KeepsMiss};
    ghost use Rattle.mbox_rd.specs.Patience.{HasTime, IsPutOff, pauses_ms};

    // Why a call is refused that the file isn't asked for: it is in no turn in which none failed, or else what was cut
    // off couldn't be kept so as this turn began.
    fn refusal(&self) -> SpoolFault
        ensures outside { self.now.in_turn ≡ false → result ≡ SpoolFault.NoTurn }
        ensures broken { self.now.has_failed ≡ true → result ≡ SpoolFault.NoTurn }
    {
        if self.in_turn && !self.has_failed {
            self.unkept
        } else {
            SpoolFault::NoTurn
        }
    }

    // Counts a failure, which has that reason, and throws away what waits.
    fn fail(&mut self, fault: SpoolFault) -> SpoolFault
        ensures fault { result ≡ fault }
        ensures new { self.new ≡ failed_again self.old }
        ensures counted { Rises self.old.failures self.new.failures }
    {
        self.waiting.clear();
        self.failures = self.failures.saturating_add(1);
        self.has_failed = self.has_failed || self.in_turn;
        fault
    }

    // Asks for a turn. After one that broke, what the path names is opened first.
    fn ask(&mut self) -> Result<FileEnd, InUse>
        requires free { self.old.in_turn ≡ false }
        ensures same { self.new ≡ record self.old {
          file = self.new.file;
          patience = self.new.patience;
          is_ready = self.new.is_ready;
        } }
        ensures unready { self.new.is_ready ≡ false }
        ensures ready { self.old.is_ready ≡ true
            → result ≡ Ok (record { at = self.old.began; tail = self.old.tail }) }
        ensures ok { IfOk result (HasBegun (F.state self.old.file) (F.state self.new.file)) }
        ensures entry { OnOk result ((F.state self.new.file).has_entry ≡ true) }
        ensures anew { self.old.has_failed ≡ true
            → OnOk result (Rises (F.state self.old.file).openings (F.state self.new.file).openings) }
        ensures err { OnErr result (HasMissed (F.state self.old.file) (F.state self.new.file)) }
        ensures opened { IfErr result (OpensAfter (F.state self.old.file) (F.state self.new.file)) }
        ensures waits { HasWaited self.old.patience self.new.patience self.old.wait }
        ensures keeps_miss { KeepsMiss self.old.patience self.new.patience }
        ensures since { self.old.patience.goes_on ≡ true → self.new.patience.asked ≡ self.old.patience.asked }
        ensures ended { self.new.patience.goes_on ≡ false }
        ensures given_up { IfErr result (λ in_use. in_use ≡ InUse.Locked
            → IsGivenUp self.old.patience self.new.patience
            ⊎ Rises (F.state self.old.file).unopened (F.state self.new.file).unopened) }
    {
        let tries = self.patience.tries(&self.clock, self.wait);
        let answer = self.try_for_turn(tries);
        self.patience.end_wait(&self.clock);
        answer
    }

    // Tries for a turn that often. Locks that were taken before are its own.
    fn try_for_turn(&mut self, tries: u64) -> Result<FileEnd, InUse>
        requires free { self.old.in_turn ≡ false }
        requires unpaused { IsUnpaused self.old.patience }
        requires time { pauses_ms (tries - 1) ≤ 3_600_000 }
        requires asked { self.old.patience.goes_on ≡ false }
        ensures same { self.new ≡ record self.old {
          file = self.new.file;
          patience = self.new.patience;
          is_ready = self.new.is_ready;
        } }
        ensures unready { self.new.is_ready ≡ false }
        ensures ready { self.old.is_ready ≡ true
            → result ≡ Ok (record { at = self.old.began; tail = self.old.tail }) }
        ensures ok { IfOk result (HasBegun (F.state self.old.file) (F.state self.new.file)) }
        ensures entry { OnOk result ((F.state self.new.file).has_entry ≡ true) }
        ensures anew { self.old.has_failed ≡ true
            → OnOk result (Rises (F.state self.old.file).openings (F.state self.new.file).openings) }
        ensures err { OnErr result (HasMissed (F.state self.old.file) (F.state self.new.file)) }
        ensures opened { IfErr result (OpensAfter (F.state self.old.file) (F.state self.new.file)) }
        ensures paused { HasPaused self.old.patience self.new.patience tries }
        ensures given_up { IfErr result (λ in_use. in_use ≡ InUse.Locked
            → (self.new.patience.pauses ≡ tries - 1) ⊎ IsTimeOver self.new.patience
            ⊎ Rises (F.state self.old.file).unopened (F.state self.new.file).unopened) }
    {
        if self.is_ready {
            return Ok(self.take_ready());
        }
        open_anew(&mut self.file, self.has_failed)?;
        wait_for_turn(&mut self.file, &self.clock, &mut self.patience, tries, true)
    }

    // The end of the file whose locks were taken before.
    fn take_ready(&mut self) -> FileEnd
        requires free { self.old.in_turn ≡ false }
        requires ready { self.old.is_ready ≡ true }
        ensures same { self.new ≡ record self.old { is_ready = false } }
        ensures end { result ≡ record { at = self.old.began; tail = self.old.tail } }
        ensures begun { HasBegun (F.state self.old.file) (F.state self.old.file) result }
        ensures entry { (F.state self.old.file).has_entry ≡ true }
        ensures sound { self.old.has_failed ≡ false }
    {
        self.is_ready = false;
        FileEnd {
            at: self.began,
            tail: self.tail,
        }
    }

    // Tries once to have the locks before the turn is asked for. Whether others have them, and there is time yet.
    fn try_ahead(&mut self) -> bool
        requires free { self.old.in_turn ≡ false }
        requires sound { self.old.has_failed ≡ false }
        requires unready { self.old.is_ready ≡ false }
        ensures same { self.new ≡ record self.old {
          file = self.new.file;
          patience = self.new.patience;
          is_ready = self.new.is_ready;
          began = self.new.began;
          tail = self.new.tail;
        } }
        ensures untouched { IsUntouched (F.state self.old.file) (F.state self.new.file) }
        ensures missed { result ≡ true → HasMissed (F.state self.old.file) (F.state self.new.file) }
        ensures unready { result ≡ true → self.new.is_ready ≡ false }
        ensures held { self.new.is_ready ≡ true → IsHeld (F.state self.new.file) }
        ensures since { self.old.patience.goes_on ≡ true → self.new.patience.asked ≡ self.old.patience.asked }
        ensures time { result ≡ true → HasTime self.new.patience }
        ensures waits { result ≡ true → IsPutOff self.new.patience self.new.wait }
    {
        self.patience.tries(&self.clock, self.wait);
        let answer = self.try_for_turn(1);
        self.patience.put_off(&self.clock);
        match answer {
            Ok(end) => {
                self.began = end.at;
                self.tail = end.tail;
                self.is_ready = true;
                false
            }
            Err(in_use) => {
                self.file.rest();
                self.may_wait(in_use)
            }
        }
    }

    // Whether a turn that was missed for that reason may still be waited for.
    fn may_wait(&self, in_use: InUse) -> bool
        ensures { result ≡ true → HasTime self.now.patience }
    {
        match in_use {
            InUse::Locked => self.patience.has_time(&self.clock),
            _ => false,
        }
    }

    // Has what an earlier turn cut off kept so, where that is owed.
    fn settle(&mut self)
        requires free { self.old.in_turn ≡ false }
        requires unready { self.old.is_ready ≡ false }
        ensures same { self.new ≡ record self.old { file = self.new.file; is_unsettled = self.new.is_unsettled } }
        ensures stays { StaysThere (F.state self.old.file) (F.state self.new.file) }
        ensures covered { (F.state self.old.file).kept ≤ length (F.state self.old.file).bytes
            → (F.state self.new.file).kept ≤ length (F.state self.new.file).bytes }
        ensures moments { LeavesOnly (LeavesOne 0 ((F.state self.old.file).bytes ∷ (F.state self.old.file).cut_off))
            (F.state self.old.file) (F.state self.new.file) }
        ensures settled { self.new.is_unsettled ≡ false → (F.state self.new.file).cut_off ≡ [] }
    {
        if !self.is_unsettled {
            return;
        }
        match self.file.keep() {
            Ok(()) => self.is_unsettled = false,
            Err(error) => self.unkept = SpoolFault::of(&error),
        }
    }

    // Begins a turn on a file that ends so.
    fn start(&mut self, end: FileEnd)
        requires free { self.old.in_turn ≡ false }
        requires held { IsHeld (F.state self.old.file) }
        requires entry { (F.state self.old.file).has_entry ≡ true }
        requires end { IsEnd (F.state self.old.file) end }
        requires covered { (F.state self.old.file).kept ≤ length (F.state self.old.file).bytes }
        ensures starts { StartsTurn F.state self.old self.new }
        ensures same { self.new.is_unsettled ≡ self.old.is_unsettled }
        ensures patience { self.new.patience ≡ self.old.patience }
        ensures file { self.new.file ≡ self.old.file }
        ensures began { self.new.began ≡ end.at }
        ensures tail { self.new.tail ≡ end.tail }
    {
        self.began = end.at;
        self.tail = end.tail;
        self.is_ready = false;
        self.waiting.begin(&self.buffer, end.at);
        self.in_turn = true;
        self.has_failed = false;
        self.is_unsynced = false;
        let begun = Turns::after::<Brand, F>(&self.turns, &self.file, self.failures);
        self.turns = begun;
    }

    // Counts a missed turn.
    fn refuse(&mut self, in_use: InUse) -> Result<u64, InUse>
        ensures new { CountsRefusal self.old self.new }
        ensures file { self.new.file ≡ self.old.file }
        ensures patience { self.new.patience ≡ self.old.patience }
        ensures result { result ≡ Err in_use }
    {
        self.is_ready = false;
        self.refusals = self.refusals.saturating_add(1);
        self.turns.miss();
        Err(in_use)
    }
}

impl<F: MailboxFile + Drop, C: Clock + Drop> Spool for FileSpool<F, C> {
    ghost use Rattle.mbox_rd.specs.FileSpool.{HasTurn, StartsTurn, CountsRefusal, HasEnded, StopsTurn};
    ghost use Rattle.mbox_rd.specs.FileSpool.{HasTaken, KeepsAll, StaysSound, Breaks, HasLost, failed_again};
    ghost use Rattle.mbox_rd.specs.FileSpool.{AddsLines, KnowsEnd, contents_of, state_of};
    ghost use Rattle.mbox_rd.specs.Moments.{AnyMoment, Stores};
    ghost use Rattle.mbox_rd.specs.Patience.{HasTime, HasWaited, IsGivenUp, IsPutOff, KeepsMiss};
    ghost use Rattle.mbox_rd.specs.Turn.{HasMissed, IsUntouched, OpensAfter};

    ghost state = { λ s. state_of F.state s };

    ghost MayFind = { λ last now. ⊤ };

    ghost MayRefuse = { λ broke refused. ⊤ };

    /// Waits for programs that have the mailbox locked, as far as what may be waited within a minute isn't used up, and
    /// for a minute after a missed turn not at all. After a turn that broke, what the path names is opened again first;
    /// where the system refuses a lock, or a look at the open file, it is opened for the next turn. What was cut off is
    /// kept so where that is owed, or else this turn's first append and sync fail. In a turn it is refused, and the turn
    /// goes on. Locks that `is_waited_for` has taken are its own; where that was called and others had them, the turn was
    /// waited for before, from the first of those calls on, and has one try.
    fn lock(&mut self) -> Result<u64, InUse>
        ensures within { self.old.in_turn ≡ true → (result ≡ Err InUse.Locked) × (self.new.file ≡ self.old.file)
            × (self.new.patience ≡ self.old.patience) }
        ensures ready { self.old.in_turn ≡ false → self.old.is_ready ≡ true → result ≡ Ok self.old.began }
        ensures starts { OnOk result (StartsTurn F.state self.old self.new) }
        ensures had { OnOk result (HasTurn F.state self.new) }
        ensures moments { OnOk result
            (LeavesOnly (LeavesOne 0 ((F.state self.new.file).bytes ∷ (F.state self.old.file).cut_off))
            (F.state self.old.file) (F.state self.new.file)) }
        ensures anew { self.old.in_turn ≡ false → self.old.has_failed ≡ true
            → OnOk result (Rises (F.state self.old.file).openings (F.state self.new.file).openings) }
        ensures count { IfOk result (λ held. held ≡ self.new.began) }
        ensures refused { OnErr result (CountsRefusal self.old self.new) }
        ensures not_had { self.old.in_turn ≡ false
            → OnErr result (HasMissed (F.state self.old.file) (F.state self.new.file)) }
        ensures opened { self.old.in_turn ≡ false
            → IfErr result (OpensAfter (F.state self.old.file) (F.state self.new.file)) }
        ensures waits { self.old.in_turn ≡ false → HasWaited self.old.patience self.new.patience self.old.wait }
        ensures since { self.old.in_turn ≡ false → self.old.patience.goes_on ≡ true
            → self.new.patience.asked ≡ self.old.patience.asked }
        ensures keeps_miss { OnOk result (KeepsMiss self.old.patience self.new.patience) }
        ensures missed { self.old.in_turn ≡ false → OnErr result (self.new.patience.was_missed ≡ true) }
        ensures given_up { self.old.in_turn ≡ false → IfErr result (λ in_use. in_use ≡ InUse.Locked
            → IsGivenUp self.old.patience self.new.patience
            ⊎ Rises (F.state self.old.file).unopened (F.state self.new.file).unopened) }

        // what every spool ensures
        ensures asks { AsksForTurn (⟦<FileSpool<F, C> as Spool>⟧.state self.old)
            (⟦<FileSpool<F, C> as Spool>⟧.state self.new) result }
    {
        if self.in_turn {
            return self.refuse(InUse::Locked);
        }
        match self.ask() {
            Ok(end) => {
                self.settle();
                self.start(end);
                Ok(end.at)
            }
            Err(in_use) => {
                self.file.rest();
                self.patience.miss(&self.clock);
                self.refuse(in_use)
            }
        }
    }

    /// Tries once for both locks, and keeps them for the next lock where it has them. The wait of that lock begins with
    /// the first of these tries, between which there are a turn's pauses: in those it isn't tried, and the answer stays.
    /// In a turn, and after one that broke, it isn't tried either, and the answer is false.
    fn is_waited_for(&mut self) -> bool
        ensures same { self.new ≡ record self.old {
          file = self.new.file;
          patience = self.new.patience;
          is_ready = self.new.is_ready;
          began = self.new.began;
          tail = self.new.tail;
        } }
        ensures in_turn { self.old.in_turn ≡ true → (result ≡ false) × (self.new ≡ self.old) }
        ensures untouched { IsUntouched (F.state self.old.file) (F.state self.new.file) }
        ensures missed { result ≡ true → HasMissed (F.state self.old.file) (F.state self.new.file)
            ⊎ (self.new ≡ self.old) }
        ensures unready { result ≡ true → self.new.is_ready ≡ false }
        ensures held { self.new.is_ready ≡ true → IsHeld (F.state self.new.file) }
        ensures since { self.old.patience.goes_on ≡ true → self.new.patience.asked ≡ self.old.patience.asked }
        ensures time { result ≡ true → HasTime self.new.patience }
        ensures waits { result ≡ true → IsPutOff self.new.patience self.new.wait }

        // what every spool ensures
        ensures seen { ⟦<FileSpool<F, C> as Spool>⟧.state self.new ≡ ⟦<FileSpool<F, C> as Spool>⟧.state self.old }
    {
        if self.in_turn || self.has_failed || self.is_ready {
            return false;
        }
        self.patience.is_early(&self.clock) || self.try_ahead()
    }

    /// Gives both locks back. Where a call failed in this turn the file is cut to its length at the lock first. What
    /// waits is thrown away.
    fn unlock(&mut self)
        ensures outside { self.old.in_turn ≡ false → self.new ≡ self.old }
        ensures stops { self.old.in_turn ≡ true → StopsTurn F.state self.old self.new }
        ensures ended { self.old.in_turn ≡ true → HasEnded F.state self.old self.new }
        ensures any_moment { AnyMoment F.state self.old self.new (contents_of F.state self.old) }
        ensures stored { self.old.has_failed ≡ false → (left : List ℕ)
            → LeavesAt (at_now (F.state self.new.file)) left → LeavesAt (at_now (F.state self.old.file)) left }

        // what every spool ensures
        ensures none { (⟦<FileSpool<F, C> as Spool>⟧.state self.old).turn.in_turn ≡ false
            → ⟦<FileSpool<F, C> as Spool>⟧.state self.new ≡ ⟦<FileSpool<F, C> as Spool>⟧.state self.old }
        ensures over { (⟦<FileSpool<F, C> as Spool>⟧.state self.old).turn.in_turn ≡ true
            → EndsTurn (⟦<FileSpool<F, C> as Spool>⟧.state self.old)
            (⟦<FileSpool<F, C> as Spool>⟧.state self.new) }
    {
        if !self.in_turn {
            return;
        }
        self.is_unsettled = end_turn(
            &mut self.file,
            self.has_failed,
            self.began,
            self.is_unsettled,
        );
        self.waiting.end(&self.buffer);
        self.in_turn = false;
        let ended = Turns::after::<Brand, F>(&self.turns, &self.file, self.failures);
        self.turns = ended;
    }

    /// Fills the buffer, and writes it where it is full. The first fault of a turn says why the file's call failed.
    fn append(&mut self, piece: &[u8]) -> Result<usize, SpoolFault>
        requires { 0 < length piece.now }
        ensures outside_turn { self.old.in_turn ≡ false
            → (result ≡ Err SpoolFault.NoTurn) × (self.new ≡ failed_again self.old) }
        ensures stays_broken { self.old.has_failed ≡ true
            → (result ≡ Err SpoolFault.NoTurn) × (self.new ≡ failed_again self.old) }
        ensures unsettled { self.old.is_unsettled ≡ true → IsErr result × (self.new ≡ failed_again self.old) }
        ensures sound { OnOk result (StaysSound self.old self.new) }
        ensures taken { IfOk result (λ n. HasTaken F.state self.old self.new (take n piece.now)) }
        ensures settled { OnOk result ((F.state self.old.file).cut_off ≡ []) }
        ensures grows { OnOk result (IsPrefix (F.state self.old.file).bytes (F.state self.new.file).bytes) }
        ensures ends { OnOk result (KnowsEnd F.state self.new) }
        ensures breaks { OnErr result (Breaks self.old self.new) }
        ensures lost { self.old.in_turn ≡ true → self.old.has_failed ≡ false → self.old.is_unsettled ≡ false
            → OnErr result (HasLost F.state self.old self.new) }
        ensures reason { self.old.in_turn ≡ true → self.old.has_failed ≡ false → self.old.is_unsettled ≡ false
            → IfErr result (λ fault. fault ≢ SpoolFault.NoTurn) }
        ensures any_moment { AnyMoment F.state self.old self.new (contents_of F.state self.old ++ piece.now) }

        // what every spool ensures
        ensures within { IfOk result (λ n. (1 ≤ n) × (n ≤ length piece.now)) }
        ensures ok { IfOk result (λ n. SpoolTook (⟦<FileSpool<F, C> as Spool>⟧.state self.old)
            (⟦<FileSpool<F, C> as Spool>⟧.state self.new) (take n piece.now)) }
        ensures err { OnErr result (SpoolFailed (⟦<FileSpool<F, C> as Spool>⟧.state self.old)
            (⟦<FileSpool<F, C> as Spool>⟧.state self.new) piece.now) }
        ensures unsynced { OnOk result ((⟦<FileSpool<F, C> as Spool>⟧.state self.new).turn.is_unsynced ≡ true) }
        ensures outside { (⟦<FileSpool<F, C> as Spool>⟧.state self.old).turn.in_turn ≡ false
            → IsErr result × ((⟦<FileSpool<F, C> as Spool>⟧.state self.new).bytes
            ≡ (⟦<FileSpool<F, C> as Spool>⟧.state self.old).bytes) }
    {
        if self.has_failed || !self.in_turn || self.is_unsettled {
            let fault = self.refusal();
            return Err(self.fail(fault));
        }
        let taken = self.take(piece);
        if taken > 0 {
            return Ok(taken);
        }
        match self.write_waiting() {
            Ok(()) => Ok(self.take(piece)),
            Err(unwritten) => Err(self.fail(unwritten)),
        }
    }

    /// Copies into the buffer, as far as there is room for 64 bytes. The file isn't touched.
    fn append_lines(&mut self, piece: &[u8]) -> usize
        requires { HasLines piece.now }
        ensures refused { (self.old.has_failed ≡ true) ⊎ (self.old.is_unsettled ≡ true) → result ≡ 0 }
        ensures sound { 0 < result → StaysSound self.old self.new }
        ensures file { self.new.file ≡ self.old.file }
        ensures lines { 0 < result → AddsLines self.old.waiting self.new.waiting piece.now result }
        ensures ends { 0 < result → KnowsEnd F.state self.new }

        // what every spool ensures
        ensures within { result ≤ length piece.now }
        ensures none { result ≡ 0
            → ⟦<FileSpool<F, C> as Spool>⟧.state self.new ≡ ⟦<FileSpool<F, C> as Spool>⟧.state self.old }
        ensures some { 0 < result → Writes (⟦<FileSpool<F, C> as Spool>⟧.state self.old)
            (⟦<FileSpool<F, C> as Spool>⟧.state self.new) (λ rest. quoted_owed Inside (piece.now ++ rest))
            (λ rest. quoted_owed Inside (drop result piece.now ++ rest)) }
        ensures unsynced { 0 < result → (⟦<FileSpool<F, C> as Spool>⟧.state self.new).turn.is_unsynced ≡ true }
        ensures outside { (⟦<FileSpool<F, C> as Spool>⟧.state self.old).turn.in_turn ≡ false → result ≡ 0 }
    {
        if self.is_unsettled || self.has_failed || !self.in_turn {
            return 0;
        }
        self.take_lines(piece)
    }

    /// Writes what waits, and has the file's bytes kept by the system. The first fault of a turn says why the file's
    /// call failed.
    fn sync(&mut self) -> Result<(), SpoolFault>
        ensures outside_turn { self.old.in_turn ≡ false
            → (result ≡ Err SpoolFault.NoTurn) × (self.new ≡ failed_again self.old) }
        ensures stays_broken { self.old.has_failed ≡ true
            → (result ≡ Err SpoolFault.NoTurn) × (self.new ≡ failed_again self.old) }
        ensures unsettled { self.old.is_unsettled ≡ true → IsErr result × (self.new ≡ failed_again self.old) }
        ensures sound { OnOk result (StaysSound self.old self.new) }
        ensures written { self.new.waiting ≡ [] }
        ensures kept { OnOk result (KeepsAll F.state self.old self.new) }
        ensures entry { OnOk result ((F.state self.new.file).has_entry ≡ true) }
        ensures ends { OnOk result (KnowsEnd F.state self.new) }
        ensures breaks { OnErr result (Breaks self.old self.new) }
        ensures lost { self.old.in_turn ≡ true → self.old.has_failed ≡ false → self.old.is_unsettled ≡ false
            → OnErr result (HasLost F.state self.old self.new) }
        ensures reason { self.old.in_turn ≡ true → self.old.has_failed ≡ false → self.old.is_unsettled ≡ false
            → IfErr result (λ fault. fault ≢ SpoolFault.NoTurn) }
        ensures any_moment { AnyMoment F.state self.old self.new (contents_of F.state self.old) }
        ensures stored { OnOk result (Stores F.state self.old (F.state self.new.file)) }

        // what every spool ensures
        ensures ok { OnOk result (HasSynced (⟦<FileSpool<F, C> as Spool>⟧.state self.old)
            (⟦<FileSpool<F, C> as Spool>⟧.state self.new)) }
        ensures err { OnErr result (HasNotSynced (⟦<FileSpool<F, C> as Spool>⟧.state self.old)
            (⟦<FileSpool<F, C> as Spool>⟧.state self.new)) }
        ensures outside { (⟦<FileSpool<F, C> as Spool>⟧.state self.old).turn.in_turn ≡ false → IsErr result }
    {
        if !self.in_turn || self.has_failed || self.is_unsettled {
            let fault = self.refusal();
            return Err(self.fail(fault));
        }
        match self.keep_waiting() {
            Ok(()) => {
                self.is_unsynced = false;
                Ok(())
            }
            Err(unkept) => Err(self.fail(unkept)),
        }
    }

    /// How the file ends, with the bytes that wait.
    fn tail(&self) -> Tail
        ensures exact { ending_of result ≡ ending_from (ending_of self.now.tail) self.now.waiting }

        // what every spool ensures
        ensures known { knows_end (⟦<FileSpool<F, C> as Spool>⟧.state self.now).turn ≡ true
            → ending_of result ≡ ending (⟦<FileSpool<F, C> as Spool>⟧.state self.now).bytes }
    {
        tail_after(self.tail, self.waiting.as_slice())
    }
}
