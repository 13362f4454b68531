//! What the contract of a thread that puts copies off comes to, in the words of the model.

ghost use Rattle.box_worker.specs.Modelled.{EachIsKnownPatiently};
ghost use Rattle.box_worker.specs.Turned.{manner_of};

use mbox_spool::Spool;

/// Of each mailbox of a thread that has ended, that found no channel gone and whose channel was settled, it is known
/// what the model asks of a worker of its own, over a channel with room for as many copies more as may wait.
pub fn each_is_known_where_copies_wait<S: Spool>()
    ensures { EachIsKnownPatiently (manner_of S.MayFind S.MayRefuse) }
{}
