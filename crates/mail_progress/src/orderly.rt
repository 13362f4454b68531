//! Orderly runs: the order in which a running lane goes.

ghost use Rattle.std.specs.Prelude.{◌≡◌, List, [], ◌∷◌, ◌++◌, take, Some};
ghost use Rattle.mail_world.specs.declared.Note.{Note};
ghost use Rattle.mail_world.specs.declared.Outcome.TheVariants.{Stored, Failed, OverQuota};
ghost use Rattle.mail_world.specs.Records.{record_of, mailbox};
ghost use Rattle.mail_world.specs.Endings.{mended};
ghost use Rattle.mail_world.specs.House.{House, IsStart};
ghost use Rattle.mail_world.specs.Runs.{Happened, Run, last_house, events_of, HasSpoolAndPlaces, HasDrained};
ghost use Rattle.mail_progress.specs.Orderly.{IsOrderly};
ghost use Rattle.mail_progress.specs.Finished.{IsFinished};

/// Orderly runs exist. In one, with room for two slips, a message has two copies for a mailbox. The first turn breaks
/// when five bytes are written, which aren't cut off again; the second finds them, mends them and stores. The channel
/// is drained, and all is finished.
pub fn an_orderly_run_heals()
    ensures { (start : House) × (run : List Happened) × (first second : Note) × IsStart 2 start × Run start run
        × IsOrderly 2 start run
        × let part = take 5 (record_of start.calendar start.site first) in
        HasSpoolAndPlaces (last_house start run) (part ++ mended part ++ record_of start.calendar start.site second)
        (Some Failed ∷ Some Stored ∷ [])
        × HasDrained (last_house start run)
        × IsFinished 2 (events_of run) (last_house start run) }
{}

/// In another, with room for five, of five copies the first breaks and is cut back, one is stored, one is over the
/// quota, one misses its turn and one is handed back; then too all is finished.
pub fn an_orderly_run_refuses()
    ensures { (start : House) × (run : List Happened) × (note : Note) × IsStart 2 start × Run start run
        × IsOrderly 5 start run
        × HasSpoolAndPlaces (last_house start run) (mailbox start.calendar start.site [] (note ∷ []))
        (Some Failed ∷ Some Stored ∷ Some OverQuota ∷ Some Failed ∷ Some Failed ∷ [])
        × HasDrained (last_house start run)
        × IsFinished 2 (events_of run) (last_house start run) }
{}
