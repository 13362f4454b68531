//! The parameters after a path (RFC 5321, 4.1.2): SIZE (RFC 1870) and BODY (RFC 6152), which are checked and then
//! forgotten, and SMTPUTF8 (RFC 6531, 3.4).

ghost use Rattle.std.specs.Prelude.{◌≡◌, ◌++◌, ◌==◌, [], ◌∷◌, List, ℕ, IfSome, is_some, nat_lt, length, option_map};
ghost use Rattle.mail_world.specs.Commands as m;
ghost use Rattle.lmtp_text.specs.Parameters.{seen_value, seen_parameter, Tallies, IsWithSize, IsWithBody, IsWithUtf8};
ghost use Rattle.lmtp_text.specs.Parameters.{mail_answer};

use crate::cut::cut_at;
use crate::names::is_word;
use mail_world::limits::SIZE_DIGIT_LIMIT;
use mail_world::{BadCommand, Extensions};

/// A keyword, and what stands after its equals sign, if there is one.
#[derive(Clone, Copy)]
struct Parameter<'a> {
    keyword: &'a [u8],
    value: Option<&'a [u8]>,
}

/// What the parameters of MAIL have come to so far.
#[derive(Clone, Copy)]
struct Tally {
    unknown: bool,
    wrong: bool,
    large: bool,
    has_size: bool,
    has_body: bool,
    has_utf8: bool,
}

/// The parameter that a piece between spaces spells.
fn read_parameter(piece: &[u8]) -> Parameter
    ensures { seen_parameter result ≡ m.parameter piece.now }
{
    match cut_at(piece, b'=') {
        Some((keyword, value)) => Parameter {
            keyword,
            value: Some(value),
        },
        None => Parameter {
            keyword: piece,
            value: None,
        },
    }
}

/// The size that a value of 1 to 20 digits gives, at most one above the limit; nothing for another value.
fn read_size(value: Option<&[u8]>, limit: u32) -> Option<u64>
    ensures valid { is_some result ≡ m.is_size_value (seen_value value.entry) }
    ensures above { IfSome result
        (λ size. nat_lt limit size ≡ m.is_above_limit limit (seen_value value.entry)) }
{
    let digits = value?;
    if digits.is_empty() || digits.len() > SIZE_DIGIT_LIMIT {
        return None;
    }
    let beyond = u64::from(limit) + 1;
    let mut size: u64 = 0;
    for digit in digits {
        if !digit.is_ascii_digit() {
            return None;
        }
        size = (size * 10 + u64::from(*digit - b'0')).min(beyond);
    }
    Some(size)
}

/// Whether the value names a kind of body.
fn is_body(value: Option<&[u8]>) -> bool
    ensures { result ≡ m.is_body_value (seen_value value.entry) }
{
    match value {
        Some(kind) => is_word(kind, b"7BIT") || is_word(kind, b"8BITMIME"),
        None => false,
    }
}

impl Tally {
    /// The tally with one more parameter, at a site that offers these extensions.
    fn with(self, parameter: Parameter, offered: Extensions) -> Tally
        ensures { (before : List m.Parameter) → Tallies offered self before
            → Tallies offered result (before ++ seen_parameter parameter.entry ∷ []) }
    {
        if is_word(parameter.keyword, b"SIZE") {
            self.with_size(parameter.value, offered.message_limit)
        } else if is_word(parameter.keyword, b"BODY") {
            self.with_body(parameter.value)
        } else if is_word(parameter.keyword, b"SMTPUTF8") {
            self.with_utf8(parameter.value, offered.utf8)
        } else {
            Tally {
                unknown: true,
                ..self
            }
        }
    }

    /// The tally with one more SIZE.
    fn with_size(self, value: Option<&[u8]>, limit: u32) -> Tally
        ensures { IsWithSize limit self (seen_value value.entry) result }
    {
        match read_size(value, limit) {
            Some(size) => Tally {
                wrong: self.wrong || self.has_size,
                large: size > u64::from(limit) || self.large,
                has_size: true,
                ..self
            },
            None => Tally {
                wrong: true,
                has_size: true,
                ..self
            },
        }
    }

    /// The tally with one more BODY.
    fn with_body(self, value: Option<&[u8]>) -> Tally
        ensures { IsWithBody self (seen_value value.entry) result }
    {
        Tally {
            wrong: self.wrong || self.has_body || !is_body(value),
            has_body: true,
            ..self
        }
    }

    /// The tally with one more SMTPUTF8, which has no value, not even an empty one.
    fn with_utf8(self, value: Option<&[u8]>, is_offered: bool) -> Tally
        ensures { IsWithUtf8 is_offered self (seen_value value.entry) result }
    {
        Tally {
            unknown: !is_offered || self.unknown,
            wrong: self.wrong || self.has_utf8 || value.is_some(),
            has_utf8: true,
            ..self
        }
    }
}

/// Whether any parameter stands in the text.
pub(crate) fn has_parameters(text: &[u8]) -> bool
    ensures { result ≡ nat_lt 0 (length (m.parameters text.now)) }
{
    text.iter().any(|b| *b != b' ')
}

/// The tally of the text's parameters, at a site that offers these extensions.
fn tally_of(text: &[u8], offered: Extensions) -> Tally
    ensures { Tallies offered result (m.parameters text.now) }
{
    let mut tally = Tally {
        unknown: false,
        wrong: false,
        large: false,
        has_size: false,
        has_body: false,
        has_utf8: false,
    };
    for piece in text.split(|b| *b == b' ') {
        if !piece.is_empty() {
            tally = tally.with(read_parameter(piece), offered);
        }
    }
    tally
}

/// Whether SMTPUTF8 is among the text's parameters, where MAIL may have them; else Parameter where a keyword is
/// unknown, Arguments where a value is wrong or a keyword stands twice, TooLarge where the size is above the limit.
pub(crate) fn read_mail_parameters(text: &[u8], offered: Extensions) -> Result<bool, BadCommand>
    ensures { (sender : List ℕ) → mail_answer sender result ≡ m.mail_with offered sender (m.parameters text.now) }
{
    let tally = tally_of(text, offered);
    if tally.unknown {
        Err(BadCommand::Parameter)
    } else if tally.wrong {
        Err(BadCommand::Arguments)
    } else if tally.large {
        Err(BadCommand::TooLarge)
    } else {
        Ok(tally.has_utf8)
    }
}
