//! Laws of runs: each is the contract of a function with an empty body.

ghost use Rattle.std.specs.Prelude.{◌≡◌, ◌<◌, ℕ, List, ◌++◌, length, flat_map, map, Some};
ghost use Rattle.std.specs.List.{AllByRecursion};
ghost use Rattle.mail_world.specs.Lists.{of_lane};
ghost use Rattle.mail_world.specs.Reading.{Letter, AreLetters, IsMailed, written};
ghost use Rattle.mail_world.specs.Site.{Site, IsSite, box_name};
ghost use Rattle.mail_world.specs.Text.{IsOneLine};
ghost use Rattle.mail_lives.specs.ReadAs.{IsReadAs};
ghost use Rattle.mail_lives.specs.Lives.{HaveLived, LivesLeave, taken_through, told_in, told_through};
ghost use Rattle.mail_writing.specs.Calendar.{civil_at};
ghost use Rattle.lmtp_threads.specs.Works.{visits_view, spools_view};
ghost use Rattle.lmtp_lives.specs.Runs.{ServerRun, number_of, lives_in, lives_at, told_in_run};
ghost use Rattle.mail_lives.specs.Spoils.{Adds, AreFound, found};
ghost use Rattle.mail_lives.specs.SpoiltLives.{LivesKeep, lives_moves, added_in};
ghost use Rattle.mail_lives.specs.Steps.{letter_at};
ghost use Rattle.lmtp_lives.specs.ReadBack.{AreReadBack};
ghost use Rattle.lmtp_lives.specs.Spoilt.{SpoiltRun, spoilt_lives_at};

use box_worker::TurnObserver;
use lmtp_lane::{Clock, Visits};
use lmtp_talk::Observer;
use mbox_spool::Spool;

/// Each mailbox of a site that a server may have is the one of its name.
pub fn mailboxes_are_named()
    ensures { (site : Site) (b : ℕ) → IsSite site → b < length site.boxes
        → number_of (box_name site b) site ≡ Some b }
{}

/// The copies of which a lane's clients were told that they are stored are just those of the lane whose turns stored.
pub fn told_is_stored<V: Visits, O: Observer, S: Spool, T: TurnObserver, C: Clock>()
    ensures { (run : ServerRun C.May (visits_view V.MayGive V.finished V.over O.told)
        (spools_view S.state S.MayFind S.MayRefuse T.told))
        (name : List ℕ) (k : ℕ) → k < length run.old.visits
        → of_lane k (flat_map told_in (lives_in name run)) ≡ told_in_run name k run }
{}

/// To each mailbox a server's runs are lives of copies that transactions make, whatever site each run has, so that the
/// laws of lives hold of them.
pub fn runs_are_lives<V: Visits, O: Observer, S: Spool, T: TurnObserver, C: Clock>()
    ensures { (runs : List (ServerRun C.May (visits_view V.MayGive V.finished V.over O.told)
        (spools_view S.state S.MayFind S.MayRefuse T.told)))
        (name old new : List ℕ) → LivesLeave civil_at (lives_at name runs) old new
        → HaveLived civil_at (lives_at name runs) old new
        × AllByRecursion IsMailed (taken_through (lives_at name runs)) }
{}

/// Whatever any client of any run was told that it is stored, by its slip, is read back after the last run: once,
/// whole, and in the order of the turns, but what others removed or changed. Each run has a site of its own.
pub fn told_is_read_back<V: Visits, O: Observer, S: Spool, T: TurnObserver, C: Clock>()
    ensures { (runs : List (ServerRun C.May (visits_view V.MayGive V.finished V.over O.told)
        (spools_view S.state S.MayFind S.MayRefuse T.told)))
        (name old new : List ℕ) (letters : List Letter) → AllByRecursion (λ run. IsOneLine run.site.host) runs
        → IsReadAs old letters → LivesLeave civil_at (lives_at name runs) old new
        → (after : List Letter) × IsReadAs new after × AreReadBack name runs letters after }
{}

/// Where the system keeps what was synced, and may leave any bytes behind it: in a mailbox that others leave alone each
/// letter that was there at first is found after any number of runs, and after them, in the order of the turns, each
/// copy whose turn stored (`stored`), of which just its lane's clients were told so (`told_is_stored`). Each begins
/// with all its lines; only the last one before such bytes, or before a turn that broke, gains lines.
pub fn spoilt_runs_are_found<V: Visits, O: Observer, S: Spool, T: TurnObserver, C: Clock>()
    ensures found { (runs : List (SpoiltRun C.May (visits_view V.MayGive V.finished V.over O.told)
        (spools_view S.state S.MayFind S.MayRefuse T.told)))
        (name : List ℕ) (letters : List Letter) (new : List ℕ)
        → AllByRecursion (λ it. IsOneLine it.run.site.host) runs
        → AreLetters letters → LivesKeep civil_at (spoilt_lives_at name runs) (written letters) new
        → AreFound (map Adds letters ++ lives_moves civil_at (spoilt_lives_at name runs)) (found new) }
    ensures stored { (runs : List (SpoiltRun C.May (visits_view V.MayGive V.finished V.over O.told)
        (spools_view S.state S.MayFind S.MayRefuse T.told))) (name : List ℕ)
        → added_in (lives_moves civil_at (spoilt_lives_at name runs))
        ≡ map (letter_at civil_at) (told_through (lives_at name (map (λ it. it.run) runs))) }
{}
