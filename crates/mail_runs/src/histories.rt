//! An order of all that the threads of a server did is a run of the model.

ghost use Rattle.mail_runs.specs.RunOf.{AHistoryGivesARun};
ghost use Rattle.mail_runs.specs.OneLane.{OneLaneHasAHistory};
ghost use Rattle.mail_runs.specs.Timed.{TimesGiveAHistory};
ghost use Rattle.mail_runs.specs.Known.{KnownAreTimed};
ghost use Rattle.mail_runs.specs.Ordered.{AnOrderlyHistoryGivesAnOrderlyRun, TimesGiveAnOrderlyHistory};
ghost use Rattle.mail_runs.specs.Ordered.{KnownAreTimedInOrder};

/// Where all that the lanes and workers did stands in one order, that of each thread and of each channel, there is a
/// run of the model from a start with as many lanes and mailboxes, over a depot that is large enough, in whose last
/// house each mailbox and each lane has come to what its threads came to.
pub fn a_history_gives_a_run()
    ensures { AHistoryGivesARun }
{}

/// Where a server has one lane, whose copies are just those that its workers took, each in the lane's order, and where
/// the lane heard just the workers' slips, each worker's in its order, there is one order of all that they did.
pub fn one_lane_has_a_history()
    ensures { OneLaneHasAHistory }
{}

/// Where each thread's deeds and each channel's acceptances have times that rise, each copy and slip was taken after it
/// was accepted, and what the threads did with a channel agrees with what the channel did, there is one order of all
/// deeds.
pub fn times_give_a_history()
    ensures { TimesGiveAHistory }
{}

/// Where times rise along each thread and each channel, and each channel's are those that its threads gave and took at,
/// what the threads did and what passed the channels agrees by time.
pub fn known_are_timed()
    ensures { KnownAreTimed }
{}

/// Where in such an order each lane sends one message after the other, and hears the slips of one before it gives the
/// next, and copies find room in their channels, the run is an orderly one, over channels of that capacity.
pub fn an_orderly_history_gives_an_orderly_run()
    ensures { AnOrderlyHistoryGivesAnOrderlyRun }
{}

/// Where besides the times of each mailbox's channel say that it made room for what it accepted, the order of all deeds
/// is such a one.
pub fn times_give_an_orderly_history()
    ensures { TimesGiveAnOrderlyHistory }
{}

/// Where besides each lane is known to go on so, and each mailbox's channel to have made room, it is so of the deeds
/// with their times.
pub fn known_are_timed_in_order()
    ensures { KnownAreTimedInOrder }
{}
