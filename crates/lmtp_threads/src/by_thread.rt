//! The mailboxes of each worker thread, on their way to it.

ghost use Rattle.std.specs.Prelude.{◌≡◌, ◌<◌, ◌^◌, IfOk, vec_len};
ghost use Rattle.std.specs.List.{AllZip};
ghost use Rattle.lmtp_threads.specs.Works.{spools_view};
ghost use Rattle.lmtp_threads.specs.Grid.{lists, IsRoom};
ghost use Rattle.lmtp_threads.specs.ByThread.{AreByThread};
ghost use Rattle.lmtp_threads.specs.ThreadWork.{IsKept};

use crate::grid::{empty_rows, push_at};
use crate::quotas::Quotas;
use crate::watched::Watched;
use box_worker::{Gate, Kept, TurnObserver};
use mbox_spool::Spool;
use std::alloc::{AllocError, Global};
use std::marker::Model;

/// A mailbox that a thread is to own: its number in the site, its spool and its gate.
#[derive(Drop)]
pub struct OwnedBox<S: Spool + Drop, T: TurnObserver, G: Gate + Drop> {
    number: u32,
    spool: Watched<S, T>,
    gate: G,
}

impl<S: Spool + Drop, T: TurnObserver, G: Gate + Drop> Model for OwnedBox<S, T, G> {
    ghost use Rattle.lmtp_threads.specs.Tasks.{Numbered};
    ghost use Rattle.lmtp_threads.specs.declared.watched.Watched.{Watched};

    ghost Value = { Numbered (Watched S T) };

    ghost view = { λ b. record { number = b.number; spool = b.spool } };
}

impl<S: Spool + Drop, T: TurnObserver, G: Gate + Drop> OwnedBox<S, T, G> {
    // What its thread keeps, before the first copy, under the mailbox's own quota.
    fn keep(self, quotas: &Quotas) -> Kept<S, G, T>
        ensures { IsKept (spools_view S.state S.MayFind S.MayRefuse T.told) quotas.now self result }
    {
        let OwnedBox {
            number,
            spool,
            gate,
        } = self;
        let Watched { inner, observer } = spool;
        Kept::new(number, inner, gate, observer, quotas.of(number))
    }
}

/// The mailboxes of each of so many threads, in the mailboxes' order: mailbox b is one of thread b mod that many.
pub fn boxes_by_thread<S: Spool + Drop, T: TurnObserver, G: Gate + Drop>(
    alloc: Global,
    spools: Vec<Watched<S, T>>,
    gates: Vec<G>,
    threads: usize,
) -> Result<Vec<Vec<OwnedBox<S, T, G>>>, AllocError>
    requires few { vec_len spools < 2 ^ 32 }
    requires gates { vec_len gates ≡ vec_len spools }
    requires some { 0 < vec_len spools → 0 < threads }
    ensures { IfOk result (λ boxes. AreByThread threads spools.items (lists boxes.items)) }
{
    let mut boxes = empty_rows(alloc, threads, 1)?;
    let mut gates = gates.into_iter();
    let mut number = 0;
    for spool in spools {
        let Some(gate) = gates.next() else {
            unreachable!()
        };
        let own = OwnedBox {
            number,
            spool,
            gate,
        };
        push_at(&mut boxes, number as usize % threads, own)?;
        number += 1;
    }
    Ok(boxes)
}

/// What a thread keeps of its mailboxes, before their first copy, each under its own quota. There is just enough room.
pub fn keep_all<S: Spool + Drop, T: TurnObserver, G: Gate + Drop>(
    boxes: Vec<OwnedBox<S, T, G>>,
    kept: Vec<Kept<S, G, T>>,
    quotas: &Quotas,
) -> Vec<Kept<S, G, T>>
    requires { IsRoom (vec_len boxes) kept }
    ensures { AllZip (IsKept (spools_view S.state S.MayFind S.MayRefuse T.told) quotas.now) boxes.items result.items }
{
    let mut kept = kept;
    for own in boxes {
        kept.push_reserved(own.keep(quotas));
    }
    kept
}
