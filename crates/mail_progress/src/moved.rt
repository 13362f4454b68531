//! Nothing is stuck, and nobody gives up.

ghost use Rattle.mail_progress.specs.NothingStuck.{NothingIsStuck, NothingIsStuckWhenClosed, ClosedStays};
ghost use Rattle.mail_progress.specs.Finished.{EndsFinished, FinishedIsStill};

/// In each house of each orderly run, with room for a slip or more, a capacity of 1 or more, and whatever mailboxes of
/// the house the lanes' next copies are for: a draft is moved by its lane; a copy to offer by its lane or, where the
/// channel of the lane's next copy is open and full, that channel's worker; a slip to collect by these while its lane
/// has a copy to offer, and then by its lane alone; a copy that is accepted, taken, in hand or released, and so a slip
/// to give, by its worker; an answer that isn't given by those who move what its lane has to offer or to collect, and
/// where it has neither, by a worker that has the copy for its place; a message that is sealed and not reclaimed by
/// those who move a lane that holds it or the worker of a mailbox that does, and where nobody does, by anyone, who
/// reclaims this very message. None of these steps gives up.
pub fn nothing_is_stuck()
    ensures { NothingIsStuck }
{}

/// The same in a house whose channels are all closed, with room for a slip or more and whatever mailboxes of the house
/// the lanes' next copies are for; channels need no capacity. There a lane alone moves what it has to offer or to
/// collect. Channels that are closed stay so.
pub fn nothing_is_stuck_when_closed()
    ensures moved { NothingIsStuckWhenClosed }
    ensures stays { ClosedStays }
{}

/// In a house of an orderly run, with room for a slip or more, a capacity of 1 or more or all channels closed, and
/// whatever mailboxes of the house the lanes' next copies are for: where none of these steps may follow, nothing is
/// under way. There is no draft and no copy to offer, every channel is drained, every slip is collected, of every
/// message that was sealed each copy was given away and each place is answered, every message is reclaimed, and every
/// block is free. Where it is so, none of them may follow, in any house and with any room.
pub fn where_nothing_goes_on_all_is_finished()
    ensures finished { EndsFinished }
    ensures still { FinishedIsStill }
{}
