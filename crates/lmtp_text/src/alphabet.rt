//! Which bytes may stand where (RFC 5321, 4.1.2 and 4.1.3; with UTF-8 RFC 6531, 3.3).

ghost use Rattle.std.specs.Prelude.{◌≡◌};
ghost use Rattle.mail_world.specs.Grammar.{is_visible, is_beyond, is_plain, is_of_domain, is_of_literal};
ghost use Rattle.mail_world.specs.Grammar.{is_of_quoted};

/// A byte of visible ASCII.
pub(crate) fn is_visible_byte(b: u8) -> bool
    ensures { result ≡ is_visible b }
{
    (33..=126).contains(&b)
}

/// A byte of a character beyond ASCII, where there may be one.
fn is_byte_beyond(utf8: bool, b: u8) -> bool
    ensures { result ≡ is_beyond utf8 b }
{
    utf8 && (128..=255).contains(&b)
}

/// Whether the byte may stand bare in a local part.
pub(crate) fn is_plain_byte(utf8: bool, b: u8) -> bool
    ensures { result ≡ is_plain utf8 b }
{
    is_visible_byte(b) && !b"<>()[]\\,;:@\"".contains(&b) || is_byte_beyond(utf8, b)
}

/// Whether the byte may stand between quotes; after a backslash ASCII alone may.
pub(crate) fn is_quoted_byte(utf8: bool, escaped: bool, b: u8) -> bool
    ensures { result ≡ is_of_quoted utf8 escaped b }
{
    (32..=126).contains(&b) || !escaped && is_byte_beyond(utf8, b)
}

/// Whether the byte may stand in a domain.
pub(crate) fn is_domain_byte(utf8: bool, b: u8) -> bool
    ensures { result ≡ is_of_domain utf8 b }
{
    b.is_ascii_alphanumeric() || b"-_.".contains(&b) || is_byte_beyond(utf8, b)
}

/// Whether the byte may stand in an address between brackets.
pub(crate) fn is_literal_byte(b: u8) -> bool
    ensures { result ≡ is_of_literal b }
{
    is_visible_byte(b) && !b"[]\\".contains(&b)
}
