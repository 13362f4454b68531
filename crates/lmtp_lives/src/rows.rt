//! A worked example.

ghost use Rattle.std.specs.Prelude.{ℕ, List, [], ◌∷◌, codes};
ghost use Rattle.mail_world.specs.Reading.{Letter};
ghost use Rattle.mail_lives.specs.ReadAs.{IsReadAs};
ghost use Rattle.mail_lives.specs.Lives.{LivesLeave};
ghost use Rattle.mail_writing.specs.Calendar.{civil_at};
ghost use Rattle.lmtp_lives.specs.Runs.{lives_at};
ghost use Rattle.lmtp_lives.specs.Rows.{Run, IsKilledAt, TellsStored};

/// Such runs exist, whatever letters anna's mailbox has and wherever the first is killed within a record: the relay
/// sends the message again, and the second run, whose host has another name and at which her mailbox has another
/// number, tells it that it is stored.
pub fn killed_runs_exist()
    ensures { (old : List ℕ) (letters : List Letter) (n : ℕ) → IsReadAs old letters
        → (first second : Run) × (new : List ℕ)
        × LivesLeave civil_at (lives_at (codes "anna") (first ∷ second ∷ [])) old new
        × IsKilledAt n old first × TellsStored second }
{}
