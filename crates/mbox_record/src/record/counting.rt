//! What a writer writes of a message, counted and not written.
ghost use Rattle.std.specs.Prelude.{◌≡◌, ℕ, List, [], ◌∷◌, ◌++◌, length, true};
ghost use Rattle.mail_world.specs.Counts.{counted};
ghost use Rattle.mail_world.specs.Text.{lf};
ghost use Rattle.mbox_marks.specs.Marking.{marks_owed};
ghost use Rattle.mbox_spool.specs.Writing.{Counts};
ghost use Rattle.mbox_spool.specs.Quoted.{quoted_owed};
ghost use Rattle.mbox_record.specs.Writing.{bytes_owed};

use super::RecordWriter;
use mbox_marks::{Held, Place, WAS, find_mark};
use mbox_spool::QuotedText;

impl RecordWriter {
    // Counts what `piece` writes.
    pub(crate) fn count(self, piece: &[u8]) -> (u64, RecordWriter)
        ensures { Counts result.0 (λ rest. bytes_owed self (piece.now ++ rest)) (bytes_owed result.1) }
    {
        let mut count = 0u64;
        let mut writer = self;
        let mut rest = piece;
        while !rest.is_empty() {
            if writer.held.is_empty() {
                let (more, last) = count_bytes(writer.quoted, writer.place, rest);
                return (count.saturating_add(more), last);
            }
            let held = writer.held.with(rest[0]);
            let (more, next) = count_bytes(writer.quoted, writer.place, held.as_slice());
            count = count.saturating_add(more);
            writer = next;
            rest = &rest[1..];
        }
        (count, writer)
    }

    // Counts what `end` writes.
    pub(crate) fn count_end(&self) -> u64
        ensures { result ≡ counted (length (bytes_owed self.now [] ++ lf ∷ [])) }
    {
        let (count, quoted) = self.quoted.count(self.held.as_slice());
        count.saturating_add(quoted.count_end())
    }

    // The same beside a text whose marks stay, which stood there, has come to that place and was counted: past the
    // marks both are one, and nothing is counted twice.
    pub(crate) fn count_beside(
        self,
        plain: QuotedText,
        piece: &[u8],
        more: u64,
        next: QuotedText,
    ) -> (u64, RecordWriter)
        requires { Counts more (λ rest. quoted_owed plain (piece.now ++ rest)) (quoted_owed next) }
        ensures { Counts result.0 (λ rest. bytes_owed self (piece.now ++ rest)) (bytes_owed result.1) }
    {
        if self.is_like(&plain) {
            return (more, RecordWriter::past_marks(next));
        }
        self.count(piece)
    }

    // Whether it is past the marks, and stands where that text does.
    fn is_like(&self, plain: &QuotedText) -> bool
        ensures { result ≡ true → (text : List ℕ) → bytes_owed self.now text ≡ quoted_owed plain.now text }
    {
        self.is_past_marks() && self.quoted.is_like(plain)
    }

    // It leaves marks as they are, and holds no bytes back for them.
    pub(crate) fn is_past_marks(&self) -> bool
        ensures { result ≡ true → (text : List ℕ) → bytes_owed self.now text ≡ quoted_owed self.now.quoted text }
    {
        match self.place {
            Place::Body => self.held.is_empty(),
            Place::Line | Place::Field | Place::Inside => false,
        }
    }

    fn past_marks(quoted: QuotedText) -> RecordWriter
        ensures { (text : List ℕ) → bytes_owed result text ≡ quoted_owed quoted text }
    {
        RecordWriter {
            quoted,
            place: Place::Body,
            held: Held::of(b""),
        }
    }
}

// Counts what `write_bytes` writes.
fn count_bytes(quoted: QuotedText, place: Place, bytes: &[u8]) -> (u64, RecordWriter)
    ensures { Counts result.0 (λ rest. quoted_owed quoted (marks_owed place (bytes.now ++ rest)))
        (bytes_owed result.1) }
{
    let mut count = 0u64;
    let mut quoted = quoted;
    let mut rest = bytes;
    let mut found = find_mark(place, rest);
    while found.is_mark {
        let (before, at_mark) = quoted.count(&rest[..found.at]);
        let (was, renamed) = at_mark.count(WAS);
        count = count.saturating_add(before).saturating_add(was);
        quoted = renamed;
        rest = &rest[found.at..];
        found = find_mark(Place::Inside, rest);
    }
    let (more, last) = quoted.count(&rest[..found.at]);
    let writer = RecordWriter {
        quoted: last,
        place: found.place,
        held: Held::of(&rest[found.at..]),
    };
    (count.saturating_add(more), writer)
}
