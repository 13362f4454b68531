//! What is known of a message's form while it comes.

ghost use Rattle.std.specs.Prelude.{◌≡◌, ◌≤◌, ◌<◌, ◌^◌, ◌⊎◌, ℕ, List, [], ◌++◌, length, take};
ghost use Rattle.mail_world.specs.declared.limits.TheConstants.{COUNTED_LINE_LIMIT};
ghost use Rattle.mail_world.specs.Text.{lf};
ghost use Rattle.mail_world.specs.Malformed.{is_malformed};
ghost use Rattle.mail_form.specs.Forms.{HasForm, EndsLine, after_count, with_cr, form_next, form_after};
ghost use Rattle.mail_form.specs.Forms.{ends_malformed};

use crate::sound_lines::sound_lines_len;
use mail_world::limits::{COUNTED_LINE_LIMIT, LONE_CR_COUNT};
use memchr::memchr;

const NUL: u8 = 0;

const TAB: u8 = b'\t';

const LF: u8 = b'\n';

const CR: u8 = b'\r';

const SPACE: u8 = b' ';

/// What is known of a message of which a part has come: 8 bytes, whatever has come.
#[derive(Clone, Copy, PartialEq, Eq)]
pub enum MessageForm {
    /// Nothing has come.
    Empty,
    /// Nothing of it is malformed; the line that goes on counts so much, without a CR that came last.
    InLine(u32, bool),
    /// It is malformed, whatever follows.
    Malformed,
}

impl MessageForm {
    /// Before the message.
    pub fn new() -> MessageForm
        ensures { HasForm result [] }
    {
        MessageForm::Empty
    }

    /// With one more piece of the message, which may end anywhere.
    pub fn with(self, piece: &[u8]) -> MessageForm
        ensures { (begun : List ℕ) → HasForm self begun → HasForm result (begun ++ piece.now) }
    {
        let (first, rest) = piece.split_at(first_line_len(piece));
        let (_sound, last) = rest.split_at(sound_lines_len(rest));
        after_bytes(after_bytes(self, first), last)
    }

    /// Whether the message is malformed, if it ends here.
    pub fn is_malformed(self) -> bool
        ensures value { result ≡ ends_malformed self }
        ensures law { (message : List ℕ) → HasForm self message → result ≡ is_malformed message }
    {
        match self {
            MessageForm::Empty => false,
            MessageForm::InLine(counted, after_cr) => {
                with_cr(counted, after_cr) > COUNTED_LINE_LIMIT as u64
            }
            MessageForm::Malformed => true,
        }
    }
}

// The first line with its end, or all where it doesn't end.
fn first_line_len(piece: &[u8]) -> usize
    ensures within { result ≤ length piece.now }
    ensures ends { (result ≡ length piece.now) ⊎ EndsLine (take result piece.now) }
{
    match memchr(LF, piece) {
        Some(at) => at + 1,
        None => piece.len(),
    }
}

fn after_bytes(form: MessageForm, piece: &[u8]) -> MessageForm
    ensures { result ≡ form_after form piece.now }
{
    let mut form = form;
    for byte in piece {
        form = next(form, *byte);
    }
    form
}

fn next(form: MessageForm, byte: u8) -> MessageForm
    ensures { result ≡ form_next form byte }
{
    match form {
        MessageForm::Empty if byte == SPACE || byte == TAB => MessageForm::Malformed,
        MessageForm::Empty => next_in_line(0, false, byte),
        MessageForm::InLine(counted, after_cr) => next_in_line(counted, after_cr, byte),
        MessageForm::Malformed => MessageForm::Malformed,
    }
}

fn next_in_line(counted: u32, after_cr: bool, byte: u8) -> MessageForm
    ensures { result ≡ form_next (MessageForm.InLine counted after_cr) byte }
{
    match byte {
        NUL => MessageForm::Malformed,
        LF => MessageForm::InLine(0, false),
        CR => after_count(with_cr(counted, after_cr), true),
        _ => after_count(with_cr(counted, after_cr) + 1, false),
    }
}

// What the line counts with a CR that came before another byte than an LF.
fn with_cr(counted: u32, after_cr: bool) -> u64
    ensures value { result ≡ with_cr counted after_cr }
    ensures small { result < 2 ^ 33 }
{
    if after_cr {
        u64::from(counted) + LONE_CR_COUNT as u64
    } else {
        u64::from(counted)
    }
}

fn after_count(counted: u64, after_cr: bool) -> MessageForm
    ensures { result ≡ after_count counted after_cr }
{
    if counted > COUNTED_LINE_LIMIT as u64 {
        MessageForm::Malformed
    } else {
        MessageForm::InLine(counted as u32, after_cr)
    }
}
