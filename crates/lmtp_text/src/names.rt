//! Whether a name is a word, whatever the case of its letters (RFC 5321, 2.4).

ghost use Rattle.std.specs.Prelude.{◌≡◌, ◌==◌, ◌≤◌, ◌<◌, ◌++◌, ◌∷◌, false, length, take};
ghost use Rattle.std.specs.Option.{MatchOption};
ghost use Rattle.std.specs.List.{before_first, list_any};
ghost use Rattle.mail_world.specs.Commands.{is_word};
ghost use Rattle.mail_world.specs.Targets.{unescaped, local_name, is_listed_as};
ghost use Rattle.mail_world.specs.Site.{IsDelimiter, any_domain};
ghost use Rattle.std.specs.Str.{byte, bytes_eq};
ghost use Rattle.lmtp_text.specs.Seen.{seen_target};
ghost use Rattle.lmtp_text.specs.Sites.{owned};

use crate::command::Target;
use crate::cut::{begins_with_byte, split_at_byte};

/// The text is the word.
pub(crate) fn is_word(text: &[u8], word: &[u8]) -> bool
    ensures { result ≡ is_word word.now text.now }
{
    text.eq_ignore_ascii_case(word)
}

/// The quoted text is the word once each backslash that begins a pair is taken away.
fn is_quoted_word(text: &[u8], word: &[u8]) -> bool
    ensures { result ≡ is_word word.now (unescaped false text.now) }
{
    let mut left = word;
    let mut escaped = false;
    for b in text {
        if !escaped && *b == b'\\' {
            escaped = true;
            continue;
        }
        let [first, rest @ ..] = left else {
            return false;
        };
        if !first.eq_ignore_ascii_case(b) {
            return false;
        }
        left = rest;
        escaped = false;
    }
    left.is_empty()
}

/// The target's local part is the word.
pub(crate) fn names(target: &Target, word: &[u8]) -> bool
    ensures { result ≡ is_word word.now (local_name (seen_target target.now)) }
{
    if target.quoted {
        is_quoted_word(target.local, word)
    } else {
        is_word(target.local, word)
    }
}

/// Writes the target's local part to the room's front, without each backslash that begins a pair where it is quoted. The
/// answer is its size; none where it is larger than the room.
pub(crate) fn write_local(room: &mut [u8], target: &Target) -> Option<usize>
    ensures size { length room.new ≡ length room.old }
    ensures text { MatchOption result (length room.old < length (local_name (seen_target target.now)))
        (λ size. (size ≤ length room.new) × (take size room.new ≡ local_name (seen_target target.now))) }
{
    if target.quoted {
        write_unescaped(room, target.local)
    } else {
        write_plain(room, target.local)
    }
}

/// Writes the target's local part so, and behind it an `@` and the domain.
pub(crate) fn write_address(room: &mut [u8], target: &Target, domain: &[u8]) -> Option<usize>
    ensures size { length room.new ≡ length room.old }
    ensures text { let address = local_name (seen_target target.now) ++ byte "@" ∷ domain.now in
        MatchOption result (length room.old < length address)
        (λ size. (size ≤ length room.new) × (take size room.new ≡ address)) }
{
    let Some(size) = write_local(room, target) else {
        return None;
    };
    if domain.len() >= room.len() - size {
        return None;
    }
    room[size] = b'@';
    let end = size + 1 + domain.len();
    room[size + 1..end].copy_from_slice(domain);
    Some(end)
}

fn write_plain(room: &mut [u8], text: &[u8]) -> Option<usize>
    ensures size { length room.new ≡ length room.old }
    ensures text { MatchOption result (length room.old < length text.now)
        (λ size. (size ≤ length room.new) × (take size room.new ≡ text.now)) }
{
    if text.len() > room.len() {
        return None;
    }
    room[..text.len()].copy_from_slice(text);
    Some(text.len())
}

// The text without each backslash that begins a pair.
fn write_unescaped(room: &mut [u8], text: &[u8]) -> Option<usize>
    ensures size { length room.new ≡ length room.old }
    ensures text { MatchOption result (length room.old < length (unescaped false text.now))
        (λ size. (size ≤ length room.new) × (take size room.new ≡ unescaped false text.now)) }
{
    let mut size = 0;
    let mut in_pair = false;
    for b in text {
        if !in_pair && *b == b'\\' {
            in_pair = true;
            continue;
        }
        if size == room.len() {
            return None;
        }
        room[size] = *b;
        size += 1;
        in_pair = false;
    }
    Some(size)
}

/// The name stands for each domain.
pub(crate) fn is_any_domain(name: &[u8]) -> bool
    ensures { result ≡ bytes_eq any_domain name.now }
{
    b"*".as_slice() == name
}

/// A listed domain is this one: it has its name, or stands for each, which no address in brackets is.
fn is_listed_as(domain: &[u8], name: &[u8]) -> bool
    ensures { result ≡ is_listed_as domain.now name.now }
{
    is_word(domain, name) || is_any_domain(name) && !begins_with_byte(domain, b'[')
}

/// The domain is among these.
pub(crate) fn is_listed(domain: &[u8], domains: &[Vec<u8>]) -> bool
    ensures { result ≡ list_any (is_listed_as domain.now) (owned domains.now) }
{
    domains.iter().any(|name| is_listed_as(domain, name))
}

/// The target with what stands before the first delimiter of its local part in place of that, or the same where it has
/// none. A delimiter is no backslash, so in a quoted text each stands for itself.
pub(crate) fn user_of<'a>(target: &Target<'a>, delimiter: u8) -> Target<'a>
    requires { IsDelimiter delimiter }
    ensures user { local_name (seen_target result)
        ≡ before_first (λ b. b == delimiter) (local_name (seen_target target.now)) }
    ensures domain { (seen_target result).domain ≡ (seen_target target.now).domain }
{
    let (user, _detail) = split_at_byte(target.local, delimiter);
    Target {
        local: user,
        ..*target
    }
}
