//! Two houses that stand still, so that what is asked of an orderly run matters.

ghost use Rattle.std.specs.Prelude.{◌≡◌, List, [], ◌∷◌, length};
ghost use Rattle.mail_world.specs.House.{House, IsStart};
ghost use Rattle.mail_world.specs.Runs.{Happened, Run, last_house, events_of};
ghost use Rattle.mail_progress.specs.Orderly.{IsOrderly};
ghost use Rattle.mail_progress.specs.GoingOn.{StandsStill};
ghost use Rattle.mail_progress.specs.Finished.{copies_sealed};
ghost use Rattle.mail_progress.specs.Remaining.{Remains, HasReleased};

/// Channels without capacity: a copy is never offered.
pub fn without_capacity_a_house_stands_still()
    ensures { (start : House) × (run : List Happened) × IsStart 2 start × Run start run × IsOrderly 1 start run
        × (start.capacity ≡ 0)
        × Remains (last_house start run) 0 0 1
        × StandsStill 1 (last_house start run) }
{}

/// One lane, one mailbox, room for one slip, a channel for one copy, and one message, sealed for four copies: one slip
/// is given, one copy is released, one waits, one can't be offered, and the lane collects only once all are. The run is
/// orderly where there is room for four slips.
pub fn with_too_many_copies_a_house_stands_still()
    ensures { (start : House) × (run : List Happened) × IsStart 2 start × Run start run × IsOrderly 4 start run
        × (start.capacity ≡ 1)
        × (length (last_house start run).lanes ≡ 1)
        × (length (last_house start run).boxes ≡ 1)
        × (copies_sealed 0 (events_of run) ≡ 4 ∷ [])
        × Remains (last_house start run) 1 1 1
        × HasReleased (last_house start run)
        × StandsStill 1 (last_house start run) }
{}
