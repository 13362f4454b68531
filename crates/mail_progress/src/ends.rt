//! What is under way ends.

ghost use Rattle.mail_progress.specs.StepsLeft.{EachLowers, EveryRunEnds};

/// A number, computed from the house, its blocks, the room for slips and a bound on the records of the copies offered,
/// is lowered by each event of an orderly run but Begin and a Put or Write of no bytes. So there are at most that many
/// of them, one after the other.
pub fn each_event_lowers_what_is_left()
    ensures each { EachLowers }
    ensures ends { EveryRunEnds }
{}
