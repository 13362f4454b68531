//! The Message-ID of a message, by which its sender's log and each other one on its way name it.

ghost use Rattle.std.specs.Prelude.{◌≡◌, ℕ, ◌<◌, ◌≤◌, ◌++◌, List, length, take, option_map};
ghost use Rattle.mail_world.specs.Commands.{trimmed};
ghost use Rattle.mail_head.specs.MessageIds as ids;
ghost use Rattle.mail_head.specs.Texts.{text_of};

use crate::text::Text;
use bstr::ByteSlice;
use lmtp_wire::first_line;
use mail_world::limits::DATA_BUFFER_SIZE;

/// As many bytes of an id are kept: a line of a message has 998 at most, and those that programs make have less than
/// 100.
pub const MESSAGE_ID_LIMIT: usize = 250;

/// What is kept of a message's id.
pub type MessageId = Text<MESSAGE_ID_LIMIT>;

const NAME: &[u8] = b"Message-ID";

/// The Message-ID of a message that begins with these bytes, and has no others where they are fewer than
/// `DATA_BUFFER_SIZE`. No more than so many are looked at.
pub fn message_id_of(head: &[u8]) -> Option<MessageId>
    ensures { option_map (λ id. text_of id) result ≡ ids.message_id_of head.now }
{
    let head = &head[..head.len().min(DATA_BUFFER_SIZE)];
    first_value(head)
}

// What is kept of the value of the first such field.
fn first_value(head: &[u8]) -> Option<MessageId>
    ensures { option_map (λ id. text_of id) result
        ≡ option_map ids.kept_value (ids.first_value (ids.lines_of head.now)) }
{
    let mut rest = head;
    for i in 0..head.len() {
        let (line, after) = split_line(rest);
        if line.is_empty() {
            return None;
        }
        if let Some(value) = begun_value(line) {
            return Some(kept_value(value, after, head.len() - i - 1));
        }
        rest = after;
    }
    None
}

// The line that a text begins with, without its CRLF, and what follows.
fn split_line(text: &[u8]) -> (&[u8], &[u8])
    ensures line { result.0.now ≡ ids.line_of text.now }
    ensures rest { result.1.now ≡ ids.after_line text.now }
{
    let end = line_len(text);
    let next = (end + 2).min(text.len());
    (&text[..end], &text[next..])
}

fn line_len(text: &[u8]) -> usize
    ensures len { result ≡ ids.line_len text.now }
    ensures within { result ≤ length text.now }
{
    match first_line(text) {
        Some(line) => line.len(),
        None => text.len(),
    }
}

// What stands behind the field's name and its colon, where a line begins with these.
fn begun_value(line: &[u8]) -> Option<&[u8]>
    ensures { option_map (λ value. value.now) result ≡ ids.begun_value line.now }
{
    let (name, rest) = line.split_at(line.len().min(NAME.len()));
    if name.eq_ignore_ascii_case(NAME) {
        after_colon(rest)
    } else {
        None
    }
}

fn after_colon(text: &[u8]) -> Option<&[u8]>
    ensures { option_map (λ value. value.now) result ≡ ids.after_colon text.now }
{
    match after_blanks(text) {
        [b':', value @ ..] => Some(value),
        _ => None,
    }
}

// What is kept of a value that goes on in the lines that follow, of which there are so many at most.
fn kept_value(value: &[u8], rest: &[u8], lines: usize) -> MessageId
    ensures { text_of result ≡ ids.kept_value (value.now ++ ids.folded_value (ids.lines_within lines rest.now)) }
{
    let mut id = Text::of(after_blanks(value));
    go_on(&mut id, rest, lines);
    Text::of(without_blanks_after(id.text()))
}

// Goes on in these lines with a value of which that was kept so far.
fn go_on(id: &mut MessageId, rest: &[u8], lines: usize)
    ensures { (value : List ℕ) → text_of id.old ≡ take MESSAGE_ID_LIMIT (ids.after_blanks value)
        → text_of id.new ≡ take MESSAGE_ID_LIMIT
        (ids.after_blanks (value ++ ids.folded_value (ids.lines_within lines rest.now))) }
{
    let mut rest = rest;
    for _ in 0..lines {
        let (line, after) = split_line(rest);
        if !begins_blank(line) {
            return;
        }
        add_more(id, &line[1..]);
        rest = after;
    }
}

// Goes on with one more part of the value.
fn add_more(id: &mut MessageId, more: &[u8])
    ensures { (value : List ℕ) → text_of id.old ≡ take MESSAGE_ID_LIMIT (ids.after_blanks value)
        → text_of id.new ≡ take MESSAGE_ID_LIMIT (ids.after_blanks (value ++ more.now)) }
{
    if id.text().is_empty() {
        id.add(after_blanks(more));
    } else {
        id.add(more);
    }
}

fn begins_blank(text: &[u8]) -> bool
    ensures { result ≡ ids.begins_blank text.now }
{
    text.first() == Some(&b' ') || text.first() == Some(&b'\t')
}

fn after_blanks(text: &[u8]) -> &[u8]
    ensures { result.now ≡ ids.after_blanks text.now }
{
    match text.find_not_byteset(b" \t") {
        Some(first) => &text[first..],
        None => b"",
    }
}

fn without_blanks_after(text: &[u8]) -> &[u8]
    ensures { result.now ≡ trimmed text.now }
{
    match text.rfind_not_byteset(b" \t") {
        Some(last) => &text[..last + 1],
        None => b"",
    }
}
