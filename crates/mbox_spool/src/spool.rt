//! Where records go: a place that takes bytes at its end, in turns, and may fail.
ghost use Rattle.std.specs.Prelude.{◌≡◌, ◌≢◌, ◌<◌, ◌≤◌, ◌++◌, Bool, length, take, drop, true, false};
ghost use Rattle.std.specs.Prelude.{is_err, IsErr, IfOk, OnOk, OnErr};
ghost use Rattle.std.specs.IoError.{raw_os_error, error_kind};
ghost use Rattle.mail_world.specs.Endings.{ending};
ghost use Rattle.mail_world.specs.Turns.{Standing};
ghost use Rattle.mbox_spool.specs.Fault.{fault_by};
ghost use Rattle.mbox_spool.specs.Lines.{HasLines};
ghost use Rattle.mbox_spool.specs.Quoted.{quoted_owed};
ghost use Rattle.mbox_spool.specs.Spool.{SpoolState, SpoolTook, SpoolFailed, HasSynced, HasNotSynced};
ghost use Rattle.mbox_spool.specs.Spool.{standing, AsksForTurn, EndsTurn};
ghost use Rattle.mbox_spool.specs.Tail.{ending_of};
ghost use Rattle.mbox_spool.specs.TurnState.{knows_end};
ghost use Rattle.mbox_spool.specs.Writing.{Writes};
ghost use Rattle.mbox_spool.specs.declared.pending.Pending.TheVariants.{Inside};

use crate::tail::Tail;
use std::io;
use std::io::ErrorKind;
use thiserror::Error;

/// Why a spool took no more bytes, or couldn't make sure of those that it has.
#[derive(Clone, Copy, Debug, PartialEq, Eq, Error)]
pub enum SpoolFault {
    /// It is in no turn, or a call failed in this one before.
    #[error("no turn")]
    NoTurn,
    /// The system refused a call, with this number of its own.
    #[error("system error {0}")]
    System(i32),
    /// A call failed for another reason of std's: no memory, say, or a write of no bytes.
    #[error("{0}")]
    Other(ErrorKind),
}

impl SpoolFault {
    /// The reason of a file's call that failed: its number where the system gave one, or else its kind.
    pub fn of(error: &io::Error) -> SpoolFault
        ensures said { result ≡ fault_by (raw_os_error error.now) (error_kind error.now) }
        ensures some { result ≢ SpoolFault.NoTurn }
    {
        match error.raw_os_error() {
            Some(code) => SpoolFault::System(code),
            None => SpoolFault::Other(error.kind()),
        }
    }
}

/// Why a turn at a mailbox was missed. Nothing was appended, and a later turn may come.
#[derive(Clone, Copy, Debug, PartialEq, Eq, Error)]
pub enum InUse {
    /// Other programs had it locked all the while, or it is in a turn.
    #[error("locked by another program")]
    Locked,
    /// A call failed in an earlier turn, after which this spool has no other.
    #[error("failed in an earlier turn")]
    Failed,
    /// What the path names is no plain file with one name.
    #[error("not plain")]
    NotPlain,
    /// The system refused a call before anything was appended, with this number of its own.
    #[error("system error {0}")]
    System(i32),
}

/// A mailbox that is written at its end, in turns. Between two turns other programs may have it, as far as `MayFind`
/// lets them, and it takes no bytes.
pub trait Spool {
    // what contracts see of it
    ghost state: { Self → SpoolState };

    // what may stand at a lock, or after one that was refused, and how much of that may be kept, by what stood last
    ghost MayFind: { Standing → Standing → Type 0 };

    // whether a lock may be refused, by whether the last turn that was had broke
    ghost MayRefuse: { Bool → Bool → Type 0 };

    /// Begins a turn, for which it may wait, and tells how many bytes stand there now, without what mends them. The
    /// count stays at 2^64 - 1. In a turn it is refused, and the turn goes on.
    fn lock(&mut self) -> Result<u64, InUse>
        ensures asks { AsksForTurn (state self.old) (state self.new) result }
        ensures found { (state self.old).turn.in_turn ≡ false
            → MayFind (standing (state self.old)) (standing (state self.new)) }
        ensures refused { (state self.old).turn.in_turn ≡ false
            → MayRefuse (state self.old).turn.has_failed (is_err result) };

    /// Whether others have the mailbox, and may still be waited for. It waits for nobody, and no turn is asked for.
    fn is_waited_for(&mut self) -> bool
        ensures { state self.new ≡ state self.old }
    {
        false
    }

    /// Ends the turn, if there is one. What a broken turn left may be cut away.
    fn unlock(&mut self)
        ensures none { (state self.old).turn.in_turn ≡ false → state self.new ≡ state self.old }
        ensures over { (state self.old).turn.in_turn ≡ true → EndsTurn (state self.old) (state self.new) };

    /// Takes bytes at the beginning of the piece, one at least, and says how many. Outside a turn it is a fault.
    fn append(&mut self, piece: &[u8]) -> Result<usize, SpoolFault>
        requires { 0 < length piece.now }
        ensures within { IfOk result (λ n. (1 ≤ n) × (n ≤ length piece.now)) }
        ensures ok { IfOk result (λ n. SpoolTook (state self.old) (state self.new) (take n piece.now)) }
        ensures err { OnErr result (SpoolFailed (state self.old) (state self.new) piece.now) }
        ensures unsynced { OnOk result ((state self.new).turn.is_unsynced ≡ true) }
        ensures outside { (state self.old).turn.in_turn ≡ false
            → IsErr result × ((state self.new).bytes ≡ (state self.old).bytes) };

    /// Takes lines of a message from inside of one on, as they are written, up to one that may be a From line, and says
    /// how many bytes of the piece these are. 0: none is taken so, and `append` is to take them.
    fn append_lines(&mut self, piece: &[u8]) -> usize
        requires { HasLines piece.now }
        ensures within { result ≤ length piece.now }
        ensures none { result ≡ 0 → state self.new ≡ state self.old }
        ensures some { 0 < result → Writes (state self.old) (state self.new)
            (λ rest. quoted_owed Inside (piece.now ++ rest)) (λ rest. quoted_owed Inside (drop result piece.now ++ rest)) }
        ensures unsynced { 0 < result → (state self.new).turn.is_unsynced ≡ true }
        ensures outside { (state self.old).turn.in_turn ≡ false → result ≡ 0 }
    {
        let _ = piece;
        0
    }

    /// Asks that all it holds be kept through a crash, as a file's `sync_data` does, and waits for the answer. After a
    /// fault any of it may be lost. Outside a turn it is a fault.
    fn sync(&mut self) -> Result<(), SpoolFault>
        ensures ok { OnOk result (HasSynced (state self.old) (state self.new)) }
        ensures err { OnErr result (HasNotSynced (state self.old) (state self.new)) }
        ensures outside { (state self.old).turn.in_turn ≡ false → IsErr result };

    /// How its bytes end, in a turn in which no call failed.
    fn tail(&self) -> Tail
        ensures { knows_end (state self.now).turn ≡ true → ending_of result ≡ ending (state self.now).bytes };
}
