//! What worker threads hand back, the mailboxes in their own order again.

ghost use Rattle.std.specs.Prelude.{◌≡◌, ◌<◌, IfOk, IfSome, OnSome, length, vec_len, vec_capacity, map};
ghost use Rattle.std.specs.Vec.Iter.{into_iter_items};
ghost use Rattle.lmtp_threads.specs.Works.{spools_view};
ghost use Rattle.lmtp_threads.specs.Grid.{lists};
ghost use Rattle.lmtp_threads.specs.Columns.{no_columns, TakesReport, HoldReports};
ghost use Rattle.lmtp_threads.specs.Reports.{thread_parts};
ghost use Rattle.lmtp_threads.specs.BroughtBack.{no_boxes, AreDealt, TakesBox, HoldBoxes};

use crate::columns::Columns;
use crate::tally::Tally;
use crate::watched::Watched;
use box_worker::{Gate, Kept, MailboxReport, ThreadReport, TurnObserver};
use mail_post::{Receiver, SlipSender};
use mbox_spool::Spool;
use msg_depot::DepotName;
use std::alloc::{AllocError, Global};
use std::marker::Model;
use std::vec::IntoIter;

/// What the worker threads hand back, by thread: their ends of the channels, and their mailboxes.
pub type ThreadColumns<N, S, T, G> = Columns<SlipSender, Receiver<N>, IntoIter<Kept<S, G, T>>, ()>;

/// What they hand back, by mailbox: the spools and observers, what was done at each, and the gates. There is room for
/// all of them.
#[derive(Drop)]
pub struct BoxColumns<S: Spool + Drop, T: TurnObserver, G: Gate + Drop> {
    pub spools: Vec<Watched<S, T>>,
    pub tallies: Vec<Tally>,
    pub gates: Vec<G>,
}

impl<S: Spool + Drop, T: TurnObserver, G: Gate + Drop> Model for BoxColumns<S, T, G> {
    ghost use Rattle.std.specs.Prelude.{vec_capacity};
    ghost use Rattle.lmtp_threads.specs.Columns.{IsBeside};
    ghost use Rattle.lmtp_threads.specs.BroughtBack.{BoxesState};
    ghost use Rattle.lmtp_threads.specs.declared.watched.Watched.{Watched};

    ghost Value = { BoxesState (Watched S T) };

    ghost view = { λ c. record {
      lent = c.spools.items;
      tallies = c.tallies.items;
      room = vec_capacity c.spools;
    } };

    ghost invariant = { λ c. IsBeside c.tallies c.spools × IsBeside c.gates c.spools };
}

impl<S: Spool + Drop, T: TurnObserver, G: Gate + Drop> BoxColumns<S, T, G> {
    /// The memory for that many mailboxes.
    pub fn with_capacity(alloc: Global, boxes: usize) -> Result<BoxColumns<S, T, G>, AllocError>
        ensures { IfOk result (λ columns. columns ≡ no_boxes boxes) }
    {
        Ok(BoxColumns {
            spools: Vec::with_capacity(alloc, boxes)?,
            tallies: Vec::with_capacity(alloc, boxes)?,
            gates: Vec::with_capacity(alloc, boxes)?,
        })
    }

    // One more mailbox.
    fn push(&mut self, kept: Kept<S, G, T>)
        requires { length self.old.lent < self.old.room }
        ensures { TakesBox (spools_view S.state S.MayFind S.MayRefuse T.told) kept self.old self.new }
    {
        let MailboxReport {
            spool,
            gate,
            observer,
            taken,
            stored,
            over,
            in_use,
            faulty,
        } = kept.report();
        self.spools.push_reserved(Watched {
            inner: spool,
            observer,
        });
        self.tallies.push_reserved(Tally {
            taken,
            stored,
            over,
            in_use,
            faulty,
        });
        self.gates.push_reserved(gate);
    }
}

/// What the worker threads hand back, but the gates: their ends of the channels by thread, and by mailbox the spools and
/// observers, and what was done at each.
#[derive(Drop)]
pub struct WorkerColumns<N: DepotName, S: Spool + Drop, T: TurnObserver> {
    pub rows: Vec<Vec<SlipSender>>,
    pub receivers: Vec<Receiver<N>>,
    pub lent: Vec<Watched<S, T>>,
    pub tallies: Vec<Tally>,
    /// One of the threads found a channel gone.
    pub gone: bool,
}

impl<N: DepotName, S: Spool + Drop, T: TurnObserver> Model for WorkerColumns<N, S, T> {
    ghost use Rattle.std.specs.Prelude.{vec_capacity};
    ghost use Rattle.mail_world.specs.declared.Note.{Note};
    ghost use Rattle.mail_world.specs.declared.Slip.{Slip};
    ghost use Rattle.mail_post.specs.Channel.{Sender, Inbox};
    ghost use Rattle.lmtp_threads.specs.Grid.{lists};
    ghost use Rattle.lmtp_threads.specs.Columns.{ColumnsState};
    ghost use Rattle.lmtp_threads.specs.declared.tally.Tally.{Tally};
    ghost use Rattle.lmtp_threads.specs.declared.watched.Watched.{Watched};

    ghost Value = { ColumnsState (Sender Slip) (Inbox Note) (Watched S T) Tally };

    ghost view = { λ c. record {
      rows = lists c.rows.items;
      inboxes = c.receivers.items;
      lent = c.lent.items;
      tallies = c.tallies.items;
      gone = c.gone;
      room = vec_capacity c.rows;
    } };
}

/// What the worker threads hand back.
#[derive(Drop)]
pub struct WorkerReports<N: DepotName, S: Spool + Drop, T: TurnObserver, G: Gate + Drop> {
    pub columns: WorkerColumns<N, S, T>,
    pub gates: Vec<G>,
}

impl<N: DepotName, S: Spool + Drop, T: TurnObserver, G: Gate + Drop> WorkerReports<N, S, T, G> {
    /// What came back by thread, and by mailbox.
    pub fn new(
        rows: Vec<Vec<SlipSender>>,
        receivers: Vec<Receiver<N>>,
        boxes: BoxColumns<S, T, G>,
        gone: bool,
    ) -> WorkerReports<N, S, T, G>
        ensures columns { result.columns ≡ record {
          rows = lists rows.items;
          inboxes = receivers.items;
          lent = boxes.lent;
          tallies = boxes.tallies;
          gone = gone;
          room = vec_capacity rows;
        } }
        ensures gates { vec_len result.gates ≡ length result.columns.lent }
    {
        let BoxColumns {
            spools,
            tallies,
            gates,
        } = boxes;
        WorkerReports {
            columns: WorkerColumns {
                rows,
                receivers,
                lent: spools,
                tallies,
                gone,
            },
            gates,
        }
    }
}

// One more thread's report.
fn take_thread<N: DepotName, S: Spool + Drop, T: TurnObserver, G: Gate + Drop>(
    columns: &mut ThreadColumns<N, S, T, G>,
    report: ThreadReport<N, S, G, T>,
)
    requires { length columns.old.rows < columns.old.room }
    ensures { TakesReport thread_parts report columns.old columns.new }
{
    let ThreadReport {
        receiver,
        slips,
        boxes,
        lost,
    } = report;
    columns.push(slips, receiver, boxes.into_iter(), (), lost);
}

/// Takes the reports apart. There is just enough room.
pub fn take_threads<N: DepotName, S: Spool + Drop, T: TurnObserver, G: Gate + Drop>(
    columns: ThreadColumns<N, S, T, G>,
    reports: Vec<ThreadReport<N, S, G, T>>,
) -> ThreadColumns<N, S, T, G>
    requires { columns ≡ no_columns (vec_len reports) }
    ensures { HoldReports thread_parts reports.items result }
{
    let mut columns = columns;
    for report in reports {
        take_thread(&mut columns, report);
    }
    columns
}

/// So many mailboxes, in the order of their numbers. Each thread's stand in that order, and mailbox b is the next of
/// thread b mod the number of threads once those before it were taken.
pub fn in_turn<S: Spool + Drop, T: TurnObserver, G: Gate + Drop>(
    boxes: Vec<IntoIter<Kept<S, G, T>>>,
    count: usize,
    columns: BoxColumns<S, T, G>,
) -> BoxColumns<S, T, G>
    requires room { columns ≡ no_boxes count }
    requires some { 0 < count → 0 < vec_len boxes }
    requires dealt { AreDealt 0 count (map into_iter_items boxes.items) }
    ensures { HoldBoxes (spools_view S.state S.MayFind S.MayRefuse T.told) count (map into_iter_items boxes.items)
        result }
{
    let mut boxes = boxes;
    let mut columns = columns;
    let threads = boxes.len();
    for b in 0..count {
        let own = &mut boxes[b % threads];
        let Some(kept) = own.next() else {
            unreachable!()
        };
        columns.push(kept);
    }
    columns
}
