//! Laws of what the lines show: each is the contract of a function with an empty body.

ghost use Rattle.std.specs.Prelude.{◌≡◌, ◌<◌, ℕ, List, All};
ghost use Rattle.percent_encoding.specs.Percent.{percent_decode};
ghost use Rattle.lmtpd_log.specs.Shown.{IsOfWord, escaped};

/// An address, an id and a client's name are one word each in a line, printable and with no space, so that none of them
/// begins another field; and the word says which text it was.
#[tactic(auto, using(crate::proofs::Shown::is_word, crate::proofs::Shown::is_read_back))]
pub fn words_are_read_back()
    ensures word { (text : List ℕ) → All IsOfWord (escaped text) }
    ensures back { (text : List ℕ) → All (λ b. b < 256) text → percent_decode (escaped text) ≡ text }
{}
