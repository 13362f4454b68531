//! Reverse and forward paths (RFC 5321, 4.1.2). Each reader takes what its text begins with, and gives what
//! follows that; nothing where no such part stands there. `utf8`: it may have characters beyond ASCII (RFC 6531, 3.3).

ghost use Rattle.std.specs.Prelude.{false, ◌≡◌, ◌==◌, ◌<◌, ◌≤◌, length, option_map, IfSome};
ghost use Rattle.std.specs.List.{list_all, prefix_len, slice_split};
ghost use Rattle.std.specs.Str.{byte, is_utf8};
ghost use Rattle.mail_world.specs.Grammar.{is_plain, is_of_domain, is_of_literal, is_domain, is_encoded};
ghost use Rattle.mail_world.specs.Paths as m;
ghost use Rattle.lmtp_text.specs.Seen.{seen_target};
ghost use Rattle.lmtp_text.specs.Paths.{seen_found, seen_text, seen_path};

use crate::alphabet::{is_domain_byte, is_literal_byte, is_plain_byte, is_quoted_byte};
use crate::command::Target;
use crate::cut::{begins_with_byte, cut_at};
use mail_world::limits::{NAME_LIMIT, PATH_LIMIT};
use std::str::from_utf8;

/// What a text begins with, and what follows that.
#[derive(Clone, Copy, Debug)]
pub(crate) struct Found<'a, T> {
    pub(crate) value: T,
    pub(crate) rest: &'a [u8],
}

/// A path's mailbox as it was written, and taken apart.
#[derive(Clone, Copy)]
pub(crate) struct Path<'a> {
    pub(crate) mailbox: &'a [u8],
    pub(crate) target: Target<'a>,
}

/// How many bytes at the beginning may stand bare in a local part.
fn plain_len(utf8: bool, text: &[u8]) -> usize
    ensures value { result ≡ prefix_len (is_plain utf8) text.now }
    ensures bound { result ≤ length text.now }
{
    text.iter()
        .position(|b| !is_plain_byte(utf8, *b))
        .unwrap_or(text.len())
}

/// How many bytes at the beginning may stand in an address between brackets.
fn literal_len(text: &[u8]) -> usize
    ensures value { result ≡ prefix_len is_of_literal text.now }
    ensures bound { result ≤ length text.now }
{
    text.iter()
        .position(|b| !is_literal_byte(*b))
        .unwrap_or(text.len())
}

/// How many bytes at the beginning may stand in a domain.
fn domain_len(utf8: bool, text: &[u8]) -> usize
    ensures value { result ≡ prefix_len (is_of_domain utf8) text.now }
    ensures bound { result ≤ length text.now }
{
    text.iter()
        .position(|b| !is_domain_byte(utf8, *b))
        .unwrap_or(text.len())
}

/// Whether each byte may stand in a domain.
fn all_of_domain(utf8: bool, text: &[u8]) -> bool
    ensures { result ≡ list_all (is_of_domain utf8) text.now }
{
    text.iter().all(|b| is_domain_byte(utf8, *b))
}

/// Whether the text is a domain.
fn is_domain_name(utf8: bool, text: &[u8]) -> bool
    ensures { result ≡ is_domain utf8 text.now }
{
    (1..=NAME_LIMIT).contains(&text.len()) && all_of_domain(utf8, text)
}

/// Whether each piece between commas is an at sign and a domain.
fn are_hops(utf8: bool, text: &[u8]) -> bool
    ensures { result ≡ list_all (m.is_hop utf8) (slice_split (λ b. b == byte ",") text.now) }
{
    text.split(|b| *b == b',').all(|hop| is_hop(utf8, hop))
}

/// Whether the text is an at sign and a domain.
fn is_hop(utf8: bool, text: &[u8]) -> bool
    ensures { result ≡ m.is_hop utf8 text.now }
{
    match text {
        [b'@', domain @ ..] => is_domain_name(utf8, domain),
        _ => false,
    }
}

/// Of the text after the quote that opens a local part, how many bytes stand before the one that closes it.
fn quoted_len(utf8: bool, text: &[u8]) -> Option<usize>
    ensures value { result ≡ m.quoted_len utf8 false text.now }
    ensures bound { IfSome result (λ n. n < length text.now) }
{
    let mut escaped = false;
    for (i, b) in text.iter().enumerate() {
        if !escaped && *b == b'"' {
            return Some(i);
        }
        if !is_quoted_byte(utf8, escaped, *b) {
            return None;
        }
        escaped = !escaped && *b == b'\\';
    }
    None
}

/// The first n bytes, if there are any.
fn some_prefix(text: &[u8], n: usize) -> Option<Found<&[u8]>>
    requires { n ≤ length text.now }
    ensures value { option_map seen_text result ≡ m.some_prefix n text.now }
    ensures within { IfSome result (λ found. length found.rest.now ≤ length text.now) }
{
    if n == 0 {
        return None;
    }
    let (value, rest) = text.split_at(n);
    Some(Found { value, rest })
}

/// A plain local part.
fn plain_local(utf8: bool, text: &[u8]) -> Option<Found<&[u8]>>
    ensures value { option_map seen_text result ≡ m.plain_local utf8 text.now }
    ensures within { IfSome result (λ found. length found.rest.now ≤ length text.now) }
{
    some_prefix(text, plain_len(utf8, text))
}

/// The text after the quote that opens a local part: the part without its quotes.
fn quoted_local(utf8: bool, text: &[u8]) -> Option<Found<&[u8]>>
    ensures value { option_map seen_text result ≡ m.quoted_local utf8 text.now }
    ensures within { IfSome result (λ found. length found.rest.now ≤ length text.now) }
{
    let n = quoted_len(utf8, text)?;
    Some(Found {
        value: &text[..n],
        rest: &text[n + 1..],
    })
}

/// A domain.
fn domain_at(utf8: bool, text: &[u8]) -> Option<Found<&[u8]>>
    ensures value { option_map seen_text result ≡ m.domain_at utf8 text.now }
    ensures within { IfSome result (λ found. length found.rest.now ≤ length text.now) }
{
    let n = domain_len(utf8, text);
    if n > NAME_LIMIT {
        return None;
    }
    some_prefix(text, n)
}

/// An address in brackets, with them; the text begins with the one that opens it.
fn literal_at(text: &[u8]) -> Option<Found<&[u8]>>
    requires { 0 < length text.now }
    ensures value { option_map seen_text result ≡ m.literal_at text.now }
    ensures within { IfSome result (λ found. length found.rest.now ≤ length text.now) }
{
    let inner = &text[1..];
    let n = literal_len(inner);
    if n == 0 || !begins_with_byte(&inner[n..], b']') {
        return None;
    }
    some_prefix(text, n + 2)
}

/// A domain or an address in brackets.
fn host_at(utf8: bool, text: &[u8]) -> Option<Found<&[u8]>>
    ensures value { option_map seen_text result ≡ m.host_at utf8 text.now }
    ensures within { IfSome result (λ found. length found.rest.now ≤ length text.now) }
{
    if begins_with_byte(text, b'[') {
        literal_at(text)
    } else {
        domain_at(utf8, text)
    }
}

/// A local part with the host part after it, where an at sign leads to one.
fn with_host<'a>(
    utf8: bool,
    quoted: bool,
    local: Found<'a, &'a [u8]>,
) -> Option<Found<'a, Target<'a>>>
    ensures value { option_map (seen_found seen_target) result ≡ m.with_host utf8 quoted (seen_text local.entry) }
    ensures within { IfSome result (λ found. length found.rest.now ≤ length local.entry.rest.now) }
{
    let Found { value, rest } = local;
    let (domain, rest) = match rest {
        [b'@', host @ ..] => {
            let host = host_at(utf8, host)?;
            (Some(host.value), host.rest)
        }
        _ => (None, rest),
    };
    let target = Target {
        local: value,
        quoted,
        domain,
    };
    Some(Found {
        value: target,
        rest,
    })
}

/// A mailbox.
fn mailbox_at(utf8: bool, text: &[u8]) -> Option<Found<Target>>
    ensures value { option_map (seen_found seen_target) result ≡ m.mailbox_at utf8 text.now }
    ensures within { IfSome result (λ found. length found.rest.now ≤ length text.now) }
{
    match text {
        [b'"', quoted @ ..] => with_host(utf8, true, quoted_local(utf8, quoted)?),
        _ => with_host(utf8, false, plain_local(utf8, text)?),
    }
}

/// What stands after a source route (RFC 5321, Appendix C); the text itself where no at sign begins one.
fn after_route(utf8: bool, text: &[u8]) -> Option<&[u8]>
    ensures value { option_map (λ rest. rest.now) result ≡ m.after_route utf8 text.now }
    ensures within { IfSome result (λ rest. length rest.now ≤ length text.now) }
{
    if !begins_with_byte(text, b'@') {
        return Some(text);
    }
    let (route, rest) = cut_at(text, b':')?;
    if are_hops(utf8, route) {
        Some(rest)
    } else {
        None
    }
}

/// The mailbox that was found at the beginning of the text, if a bracket closes its path and it is short enough.
fn closed_at<'a>(text: &'a [u8], found: Found<'a, Target<'a>>) -> Option<Found<'a, Path<'a>>>
    requires { length found.rest.now ≤ length text.now }
    ensures value { option_map (seen_found seen_path) result
        ≡ m.closed_at text.now (seen_found seen_target found.entry) }
    ensures within { IfSome result (λ path. length path.rest.now ≤ length text.now) }
{
    let Found {
        value: target,
        rest,
    } = found;
    let n = text.len() - rest.len();
    match rest {
        [b'>', rest @ ..] if n <= PATH_LIMIT => {
            let mailbox = &text[..n];
            Some(Found {
                value: Path { mailbox, target },
                rest,
            })
        }
        _ => None,
    }
}

/// A path, however it is encoded.
fn path_at(utf8: bool, text: &[u8]) -> Option<Found<Path>>
    ensures value { option_map (seen_found seen_path) result ≡ m.path_at utf8 text.now }
    ensures within { IfSome result (λ found. length found.rest.now ≤ length text.now) }
{
    match text {
        [b'<', inner @ ..] => {
            let mailbox = after_route(utf8, inner)?;
            closed_at(mailbox, mailbox_at(utf8, mailbox)?)
        }
        _ => None,
    }
}

/// Whether the text is well-formed UTF-8 (RFC 3629).
fn is_well_formed(text: &[u8]) -> bool
    ensures { result ≡ is_utf8 text.now }
{
    from_utf8(text).is_ok()
}

/// Whether the text is well-formed, where it may have characters beyond ASCII.
fn is_encoded(utf8: bool, text: &[u8]) -> bool
    ensures { result ≡ is_encoded utf8 text.now }
{
    !utf8 || is_well_formed(text)
}

/// A forward path.
#[tactic(auto, unfolding(mail_world::specs::Paths::forward_path))]
pub(crate) fn read_forward_path(utf8: bool, text: &[u8]) -> Option<Found<Path>>
    ensures { option_map (seen_found seen_path) result ≡ m.forward_path utf8 text.now }
{
    let found = path_at(utf8, text)?;
    let spelled = &text[..text.len() - found.rest.len()];
    if is_encoded(utf8, spelled) {
        Some(found)
    } else {
        None
    }
}

/// A reverse path: its mailbox, empty for `<>`.
#[tactic(auto, unfolding(mail_world::specs::Paths::reverse_path))]
pub(crate) fn read_reverse_path(utf8: bool, text: &[u8]) -> Option<Found<&[u8]>>
    ensures { option_map seen_text result ≡ m.reverse_path utf8 text.now }
{
    if text.starts_with(b"<>") {
        return Some(Found {
            value: b"",
            rest: &text[2..],
        });
    }
    let Found { value: path, rest } = read_forward_path(utf8, text)?;
    Some(Found {
        value: path.mailbox,
        rest,
    })
}
