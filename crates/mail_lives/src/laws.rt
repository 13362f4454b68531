//! Laws of the definitions: each is the contract of a function with an empty body.

ghost use Rattle.std.specs.Prelude.{◌≡◌, ℕ, ◌*◌, ◌≤◌, List, [], ◌∷◌, ◌++◌, map};
ghost use Rattle.std.specs.List.{AllByRecursion};
ghost use Rattle.mail_world.specs.declared.Note.{Note};
ghost use Rattle.mail_world.specs.Text.{IsOneLine};
ghost use Rattle.mail_world.specs.Prefixes.{IsPrefix};
ghost use Rattle.mail_world.specs.Records.{Calendar};
ghost use Rattle.mail_world.specs.Reading.{Letter, IsLetter, AreLetters, IsMailed, letter_of, letter_text, written};
ghost use Rattle.mail_lives.specs.ReadAs.{IsReadAs};
ghost use Rattle.mail_lives.specs.Steps.{letter_at, Step, Stores, Tears, StepLeaves, StepsLeave, StepsComeTo};
ghost use Rattle.mail_lives.specs.Steps.{IsMailedStep};
ghost use Rattle.mail_lives.specs.Lives.{Life, HaveLived, lives_steps, taken_through, told_through, broken_through};
ghost use Rattle.mail_lives.specs.ReadBack.{stored_in, torn_in, LeavesAlone, StandAmong, left_through, IsReadBack};
ghost use Rattle.mail_lives.specs.Spoils.{Lines, own_lines, Move, Adds, Spoils, MoveLeaves, AreWhole, MovesLeave};
ghost use Rattle.mail_lives.specs.Spoils.{AreFound, found};
ghost use Rattle.mail_lives.specs.SpoiltLives.{SpoiltLife, HaveLivedSpoilt, lives_moves, all_taken, all_told, added_in};
ghost use Rattle.mail_world.specs.Site.{Site};

/// Whatever is stored, torn, or left by others, in whatever order and under whatever sites: a mailbox that is read as
/// letters is so afterwards, and its letters are those that the steps come to. Each stored one is there once, whole,
/// and after those before it; nothing but what others remove or change is gone; nothing of a torn one is in any other.
pub fn steps_are_read()
    ensures { (calendar : Calendar) (steps : List Step) (old new : List ℕ) (letters : List Letter)
        → AllByRecursion IsMailedStep steps → IsReadAs old letters → StepsLeave calendar steps old new
        → (after : List Letter) × IsReadAs new after × StepsComeTo calendar steps letters after }
{}

/// After any number of lives a mailbox that was read as letters is so, and its letters are those that the lives' steps
/// come to. What these steps store is just what was told Stored, each under its life's site and in the order of the
/// turns, and no more of them are torn than turns broke.
pub fn lives_are_read()
    ensures read { (calendar : Calendar) (lives : List Life) (old new : List ℕ) (letters : List Letter)
        → AllByRecursion (λ life. IsOneLine life.site.host) lives → AllByRecursion IsMailed (taken_through lives)
        → IsReadAs old letters → HaveLived calendar lives old new
        → (after : List Letter) × IsReadAs new after × StepsComeTo calendar (lives_steps lives) letters after }
    ensures stored { (calendar : Calendar) (lives : List Life) (old new : List ℕ)
        → HaveLived calendar lives old new → stored_in (lives_steps lives) ≡ told_through lives }
    ensures torn { (calendar : Calendar) (lives : List Life) (old new : List ℕ)
        → HaveLived calendar lives old new → torn_in (lives_steps lives) ≤ broken_through lives }
{}

/// Where others change nothing, the letters that were there still are, and after them each that was told Stored, once,
/// whole and in the order of the turns; besides these two at most for each turn that broke.
pub fn told_are_read()
    ensures { (calendar : Calendar) (lives : List Life) (old new : List ℕ) (letters : List Letter)
        → AllByRecursion (λ life. IsOneLine life.site.host) lives → AllByRecursion IsMailed (taken_through lives)
        → AllByRecursion LeavesAlone (lives_steps lives)
        → IsReadAs old letters → HaveLived calendar lives old new
        → (more : List Letter) × IsReadAs new (letters ++ more)
        × StandAmong (map (letter_at calendar) (told_through lives)) (2 * broken_through lives) more }
{}

/// Only others take a letter away or change it. What they leave of the letters that stand there at any time stands
/// first afterwards, in its order; so it is of each copy that is stored, from the step on that stores it.
pub fn letters_stay()
    ensures old { (calendar : Calendar) (steps : List Step) (old new : List Letter)
        → StepsComeTo calendar steps old new → IsPrefix (left_through steps old) new }
    ensures stored { (calendar : Calendar) (steps : List Step) (old new : List Letter)
        → StepsComeTo calendar steps old new
        → AllByRecursion (λ it. IsReadBack calendar steps old new it.site it.note) (stored_in steps) }
{}

/// Whatever bytes a crash leaves behind letters that were kept: each of these is found, and all but the last of them
/// have just their own lines; that one's lines begin with its own.
pub fn kept_letters_are_found()
    ensures { (letters : List Letter) (last : Letter) (bytes : List ℕ) → AreLetters letters → IsLetter last
        → (gained : Lines) × (further : List Lines)
        × (found (written letters ++ (letter_text last ++ bytes))
        ≡ map own_lines letters ++ (own_lines last ++ gained) ∷ further) }
{}

/// However often crashes leave any bytes behind those that were kept, and the next letters are added there: in a
/// mailbox that had no bytes at first each letter that was added is found, once and in its order, and begins with all
/// its lines. Only the last one before such bytes gains lines by them.
pub fn spoilt_are_found()
    ensures { (moves : List Move) (new : List ℕ) → AreWhole moves → MovesLeave moves [] new
        → AreFound moves (found new) }
{}

/// A copy's turn that stores adds the copy's letter, and one that is cut off leaves bytes as a crash does.
pub fn turns_are_moves()
    ensures stored { (calendar : Calendar) (site : Site) (note : Note) (old new : List ℕ)
        → IsOneLine site.host → IsMailed note → StepLeaves calendar (Stores site note) old new
        → IsLetter (letter_of calendar site note) × MoveLeaves (Adds (letter_of calendar site note)) old new }
    ensures torn { (calendar : Calendar) (site : Site) (note : Note) (old new : List ℕ)
        → StepLeaves calendar (Tears site note) old new → (bytes : List ℕ) × MoveLeaves (Spoils bytes) old new }
{}

/// After any number of lives, each of which ends with any bytes behind those that were kept: each letter that was there
/// at first and after them each copy that was told Stored is found, once, in the order of the turns, and begins with
/// all its lines. Only the last one before a turn that broke, or before a life's end, gains lines, and only there
/// further letters are found.
pub fn spoilt_lives_are_found()
    ensures are { (calendar : Calendar) (lives : List SpoiltLife) (letters : List Letter) (new : List ℕ)
        → AllByRecursion (λ life. IsOneLine life.site.host) lives → AllByRecursion IsMailed (all_taken lives)
        → AreLetters letters → HaveLivedSpoilt calendar lives (written letters) new
        → AreFound (map Adds letters ++ lives_moves calendar lives) (found new) }
    ensures told { (calendar : Calendar) (lives : List SpoiltLife)
        → added_in (lives_moves calendar lives) ≡ map (letter_at calendar) (all_told lives) }
{}
