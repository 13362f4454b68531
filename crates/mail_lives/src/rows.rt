//! Worked examples, by computation.

ghost use Rattle.std.specs.Prelude.{◌≡◌, ℕ, List, [], ◌∷◌, ◌++◌, codes};
ghost use Rattle.mail_world.specs.Prefixes.{IsPrefix};
ghost use Rattle.mail_world.specs.Reading.{Letter, AreLetters, letter_text, written};
ghost use Rattle.mail_lives.specs.ReadAs.{IsReadAs};
ghost use Rattle.mail_lives.specs.Rows.{told, bare};
ghost use Rattle.mail_lives.specs.Spoils.{found};

/// How a mailbox is read in which a record broke off.
pub fn torn_mailboxes()
    ensures nothing { IsReadAs [] [] }
    ensures whole { IsReadAs (codes "From a\nx\n\n") (told ∷ []) }

    // Within the From line: the letter before it stays as it was.
    ensures first_byte { IsReadAs (codes "From a\nx\n\nF")
        (told ∷ bare (codes "MAILER-DAEMON Thu Jan  1 00:00:00 1970") ∷ []) }
    ensures address { IsReadAs (codes "From a\nx\n\nFrom c@a")
        (told ∷ bare (codes "c@a Thu Jan  1 00:00:00 1970") ∷ []) }
    ensures date { IsReadAs (codes "From a\nx\n\nFrom c@a Tue Feb 2")
        (told ∷ bare (codes "c@a Tue Feb 20 00:00:00 1970") ∷ []) }

    // Where what fills it up was cut off too, it goes on as it began.
    ensures filled { IsReadAs (codes "From a\nx\n\nFrom MAILER-DAEMON Th")
        (told ∷ bare (codes "MAILER-DAEMON Thu Jan  1 00:00:00 1970") ∷ []) }

    // Within its lines.
    ensures line { IsReadAs (codes "From a\nx") (told ∷ []) }
    ensures after_a_line { IsReadAs (codes "From a\nx\nF") (record told { body = codes "x\nF\n" } ∷ []) }
    ensures quoted { IsReadAs (codes "From a\nx\n\n>From") (record told { body = codes "x\n\n>From\n" } ∷ []) }

    // Where one of its lines begins as a From line does, after an empty one, two letters come of it.
    ensures begins { IsPrefix (codes "From a\nx\n\nFr") (letter_text (record told { body = codes "x\n\nFred\n" })) }
    ensures two { IsReadAs (codes "From a\nx\n\nFr")
        (told ∷ bare (codes "MAILER-DAEMON Thu Jan  1 00:00:00 1970") ∷ []) }
{}

/// Why a From line that breaks off is filled up: with line ends alone after its first byte the letter before it has two
/// lines more, and in an empty mailbox there are no letters any more, whatever is appended.
pub fn line_ends_alone_change_letters()
    ensures changed { written (told ∷ []) ++ codes "F\n\n" ≡ written (record told { body = codes "x\n\nF\n" } ∷ []) }
    ensures none { (letters : List Letter) (more : List ℕ) → AreLetters letters
        → written letters ≡ codes "F\n\n" ++ more → ⊥ }
{}

/// What is found in a mailbox that a crash spoilt, once the next letter was added.
pub fn spoilt_mailboxes()
    ensures whole { found (codes "From a\nx\n\n") ≡ (codes "From a" ∷ codes "x" ∷ [] ∷ []) ∷ [] }

    // NULs, and what was kept behind them: lines of the letter before.
    ensures zeros { found (codes "From a\nx\n\n" ++ 0 ∷ 0 ∷ codes "z\n\nFrom b\ny\n\n")
        ≡ (codes "From a" ∷ codes "x" ∷ [] ∷ (0 ∷ 0 ∷ codes "z") ∷ [] ∷ [])
        ∷ (codes "From b" ∷ codes "y" ∷ [] ∷ []) ∷ [] }

    // The From line was kept, and NULs stand in it: one more, between the two.
    ensures begun { found (codes "From a\nx\n\nFrom c" ++ 0 ∷ codes "\n\nFrom b\ny\n\n")
        ≡ (codes "From a" ∷ codes "x" ∷ [] ∷ []) ∷ ((codes "From c" ++ 0 ∷ []) ∷ [] ∷ [])
        ∷ (codes "From b" ∷ codes "y" ∷ [] ∷ []) ∷ [] }

    // Where no letter stood before, they are none.
    ensures first { found (0 ∷ codes "\n\nFrom b\ny\n\n") ≡ (codes "From b" ∷ codes "y" ∷ [] ∷ []) ∷ [] }

    // A line that follows no empty one begins no letter.
    ensures within { found (codes "From a\nFrom b\n\n") ≡ (codes "From a" ∷ codes "From b" ∷ [] ∷ []) ∷ [] }
{}
