//! How long the text of a message is in its record, counted while it comes.
ghost use Rattle.std.specs.Prelude.{◌≡◌, ◌≤◌, ℕ, List, [], ◌++◌, length, if◌then◌else◌};
ghost use Rattle.mail_world.specs.Counts.{counted};
ghost use Rattle.mbox_record.specs.Lengths.{lengths_of, text_after_head, HasCounted};

use crate::record::RecordWriter;
use mbox_spool::QuotedText;
use memchr::memmem;

const HEAD_END: &[u8] = b"\r\n\r\n";

/// How many bytes a message's text has in its record, with LF for CRLF, one more `>` before each From line, and the
/// empty line after it: where the marks of its head stay, and where `X-Was-` stands before each of them. A count stays
/// at 2^64 - 1.
#[derive(Clone, Copy, PartialEq, Eq)]
pub struct Lengths {
    pub plain: u64,
    pub marked: u64,
}

impl Lengths {
    /// Of a text whose marks are renamed, or are not.
    pub(crate) fn of_text(&self, renames_marks: bool) -> u64
        ensures is { result ≡ if renames_marks then self.now.marked else self.now.plain }
        ensures counted { (message : List ℕ) → self.now ≡ lengths_of message
            → result ≡ counted (length (text_after_head renames_marks message)) }
    {
        if renames_marks {
            self.marked
        } else {
            self.plain
        }
    }
}

/// Counts both lengths of a message that comes in pieces. It keeps no bytes but the 15 that a writer holds back at
/// most. Past the message's head both grow alike.
#[derive(Drop)]
pub struct LengthCounter {
    plain: QuotedText,
    marked: RecordWriter,
    lengths: Lengths,
}

impl LengthCounter {
    /// Before the message.
    pub fn new() -> LengthCounter
        ensures { HasCounted result [] }
    {
        LengthCounter {
            plain: QuotedText::new(),
            marked: RecordWriter::at_text(true),
            lengths: Lengths {
                plain: 0,
                marked: 0,
            },
        }
    }

    /// With one more piece of the message, which may end anywhere.
    pub fn add(self, piece: &[u8]) -> LengthCounter
        ensures { (begun : List ℕ) → HasCounted self begun → HasCounted result (begun ++ piece.now) }
    {
        let (head, rest) = piece.split_at(self.head_in(piece));
        self.add_part(head).add_part(rest)
    }

    // How many bytes of the piece the head may have. What comes after it is counted once.
    fn head_in(&self, piece: &[u8]) -> usize
        ensures { result ≤ length piece.now }
    {
        if self.marked.is_past_marks() {
            return 0;
        }
        match memmem::find(piece, HEAD_END) {
            Some(at) => at + HEAD_END.len(),
            None => piece.len(),
        }
    }

    fn add_part(self, piece: &[u8]) -> LengthCounter
        ensures { (begun : List ℕ) → HasCounted self begun → HasCounted result (begun ++ piece.now) }
    {
        let LengthCounter {
            plain,
            marked,
            lengths,
        } = self;
        let (more, next) = plain.count(piece);
        let (more_marked, next_marked) = marked.count_beside(plain, piece, more, next);
        LengthCounter {
            plain: next,
            marked: next_marked,
            lengths: Lengths {
                plain: lengths.plain.saturating_add(more),
                marked: lengths.marked.saturating_add(more_marked),
            },
        }
    }

    /// The lengths of a message that ends here.
    pub fn total(&self) -> Lengths
        ensures { (message : List ℕ) → HasCounted self.now message → result ≡ lengths_of message }
    {
        Lengths {
            plain: self.lengths.plain.saturating_add(self.plain.count_end()),
            marked: self.lengths.marked.saturating_add(self.marked.count_end()),
        }
    }
}
