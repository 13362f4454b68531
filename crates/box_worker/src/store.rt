//! The record of a held message into a spool.

ghost use Rattle.std.specs.Prelude.{◌≡◌, [], ◌∷◌, ◌++◌, OnOk, OnErr, IfOk};
ghost use Rattle.mail_world.specs.Text.{lf};
ghost use Rattle.mbox_record.specs.RecordHead.{record_after};
ghost use Rattle.mbox_spool.specs.Spool.{SpoolTook, SpoolFailed};
ghost use Rattle.mbox_record.specs.Writing.{bytes_owed, WritesPiece, FailsPiece};
ghost use Rattle.box_worker.specs.Stored.{HasKept};
ghost use Rattle.box_worker.specs.Turned.{HasKeptMended, HasNotKeptMended};

use mail_world::limits::WORKER_BUFFER_SIZE;
use mbox_record::{RecordHead, RecordWriter};
use mbox_spool::{Spool, SpoolFault, mend};
use msg_depot::{Depot, DepotName, Hold};
use std::sync::Wait;

// Appends the record of the held message, which begins with that head, and has it kept.
#[tactic(auto, using(crate::proofs::Messages::not_kept))]
fn store<N: DepotName, S: Spool, R: Wait>(
    rt: &R,
    spool: &mut S,
    depot: &Depot<N>,
    head: &RecordHead,
    hold: &mut Hold<N>,
) -> Result<(), SpoolFault>
    ensures ok { OnOk result (HasKept (S.state spool.old) (S.state spool.new)
        (record_after head.now hold.old.bytes)) }
    ensures err { OnErr result (SpoolFailed (S.state spool.old) (S.state spool.new)
        (record_after head.now hold.old.bytes)) }
    ensures hold { hold.new ≡ hold.old }
{
    append_record(rt, spool, depot, head, hold)?;
    spool.sync()
}

/// Appends what mends the spool and then the record of the held message, and has both kept. After a fault the spool
/// has gained a prefix of them at most.
pub(crate) fn mend_and_store<N: DepotName, S: Spool, R: Wait>(
    rt: &R,
    spool: &mut S,
    depot: &Depot<N>,
    head: &RecordHead,
    hold: &mut Hold<N>,
) -> Result<(), SpoolFault>
    ensures ok { OnOk result (HasKeptMended (S.state spool.old) (S.state spool.new)
        (record_after head.now hold.old.bytes)) }
    ensures err { OnErr result (HasNotKeptMended (S.state spool.old) (S.state spool.new)
        (record_after head.now hold.old.bytes)) }
    ensures hold { hold.new ≡ hold.old }
{
    mend(spool)?;
    store(rt, spool, depot, head, hold)
}

// Appends the record of the held message.
fn append_record<N: DepotName, S: Spool, R: Wait>(
    rt: &R,
    spool: &mut S,
    depot: &Depot<N>,
    head: &RecordHead,
    hold: &mut Hold<N>,
) -> Result<(), SpoolFault>
    ensures ok { OnOk result (SpoolTook (S.state spool.old) (S.state spool.new)
        (record_after head.now hold.old.bytes)) }
    ensures err { OnErr result (SpoolFailed (S.state spool.old) (S.state spool.new)
        (record_after head.now hold.old.bytes)) }
    ensures hold { hold.new ≡ hold.old }
{
    let begun = RecordWriter::after(spool, head)?;
    append_text(rt, spool, depot, hold, begun)
}

// Gives the writer the whole message, and ends the record.
fn append_text<N: DepotName, S: Spool, R: Wait>(
    rt: &R,
    spool: &mut S,
    depot: &Depot<N>,
    hold: &mut Hold<N>,
    begun: RecordWriter,
) -> Result<(), SpoolFault>
    ensures ok { OnOk result
        (SpoolTook (S.state spool.old) (S.state spool.new) (bytes_owed begun hold.old.bytes ++ lf ∷ [])) }
    ensures err { OnErr result
        (SpoolFailed (S.state spool.old) (S.state spool.new) (bytes_owed begun hold.old.bytes ++ lf ∷ [])) }
    ensures hold { hold.new ≡ hold.old }
{
    let written = append_message(rt, spool, depot, hold, begun)?;
    written.end(spool)
}

// Gives the writer the whole message, a buffer of it at a time.
fn append_message<N: DepotName, S: Spool, R: Wait>(
    rt: &R,
    spool: &mut S,
    depot: &Depot<N>,
    hold: &mut Hold<N>,
    begun: RecordWriter,
) -> Result<RecordWriter, SpoolFault>
    ensures ok { IfOk result (λ writer.
        WritesPiece (S.state spool.old) (S.state spool.new) begun writer hold.old.bytes) }
    ensures err { OnErr result (FailsPiece (S.state spool.old) (S.state spool.new) begun hold.old.bytes) }
    ensures hold { hold.new ≡ hold.old }
{
    let mut writer = begun;
    let mut bytes = [0; WORKER_BUFFER_SIZE];
    let mut at = 0;
    let mut n = depot.read(rt, hold, at, &mut bytes);
    while n > 0 {
        writer = writer.piece(spool, &bytes[..n])?;
        at += n;
        n = depot.read(rt, hold, at, &mut bytes);
    }
    Ok(writer)
}
