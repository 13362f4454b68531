//! The steps that go on, tried in an order, and where they lead.

ghost use Rattle.mail_progress.specs.InTurn.{TriedInTurn};
ghost use Rattle.mail_progress.specs.Finishes.{AlwaysFinishes, FinishesInTurn, ThereStays};

/// In each house of each orderly run, with room for a slip or more, a capacity of 1 or more or all channels closed, and
/// whatever mailboxes of the house the lanes' next copies are for: who tries the steps that go on in the order of their
/// ranks finds a first one that may happen, or all is finished.
pub fn steps_are_tried_in_turn()
    ensures { TriedInTurn }
{}

/// From each house of each orderly run, with room for a slip or more, and a capacity of 1 or more or all channels
/// closed: such steps come to an end, whichever of them are taken and whatever mailboxes the next copies are for,
/// chosen again in each house. In each house on the way, where these are mailboxes of the house, all is finished or a
/// step is first. So where they are in each house that may follow, the first steps in turn, one after the other, are an
/// orderly run to a house in which all is finished. They are so always where each lane's is always for the same
/// mailbox, which is there: mailboxes stay.
pub fn steps_in_turn_finish()
    ensures always { AlwaysFinishes }
    ensures in_turn { FinishesInTurn }
    ensures stays { ThereStays }
{}
