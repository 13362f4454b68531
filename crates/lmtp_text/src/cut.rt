//! Cuts of a text at single bytes.

ghost use Rattle.std.specs.Prelude.{◌≡◌, ◌≤◌, ◌==◌, IfSome, IfNone, is_some, [], length};
ghost use Rattle.std.specs.List.{before_first, after_first};
ghost use Rattle.mail_world.specs.Text.{begins, has_byte};
ghost use Rattle.mail_world.specs.Commands.{trimmed, after_spaces};

use bstr::ByteSlice;

/// What stands before the first such byte, and what follows it; nothing where there is no such byte.
pub(crate) fn cut_at(text: &[u8], byte: u8) -> Option<(&[u8], &[u8])>
    ensures found { is_some result ≡ has_byte text.now byte }
    ensures before { IfSome result (λ parts. parts.0.now ≡ before_first (λ b. b == byte) text.now) }
    ensures after { IfSome result (λ parts. parts.1.now ≡ after_first (λ b. b == byte) text.now) }
    ensures within { IfSome result (λ parts. length parts.1.now ≤ length text.now) }
    ensures none_before { IfNone result (before_first (λ b. b == byte) text.now ≡ text.now) }
    ensures none_after { IfNone result (after_first (λ b. b == byte) text.now ≡ []) }
{
    match text.find_byte(byte) {
        Some(at) => Some((&text[..at], &text[at + 1..])),
        None => None,
    }
}

/// What stands before the first such byte, or all of the text, and what follows that byte.
pub(crate) fn split_at_byte(text: &[u8], byte: u8) -> (&[u8], &[u8])
    ensures before { result.0.now ≡ before_first (λ b. b == byte) text.now }
    ensures after { result.1.now ≡ after_first (λ b. b == byte) text.now }
{
    cut_at(text, byte).unwrap_or((text, b""))
}

/// The text without the spaces and tabs at its end.
pub(crate) fn without_blanks_after(text: &[u8]) -> &[u8]
    ensures { result.now ≡ trimmed text.now }
{
    match text.rfind_not_byteset(b" \t") {
        Some(last) => &text[..last + 1],
        None => b"",
    }
}

/// The text without the spaces at its beginning.
pub(crate) fn without_spaces_before(text: &[u8]) -> &[u8]
    ensures { result.now ≡ after_spaces text.now }
{
    match text.find_not_byteset(b" ") {
        Some(first) => &text[first..],
        None => b"",
    }
}

/// Whether the text begins with the byte.
pub(crate) fn begins_with_byte(text: &[u8], byte: u8) -> bool
    ensures { result ≡ begins byte text.now }
{
    text.first() == Some(&byte)
}
