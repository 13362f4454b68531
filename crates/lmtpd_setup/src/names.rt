//! Which name of a mailbox can't be used, and the line of the log that says it.

ghost use Rattle.std.specs.Prelude.{◌≡◌, ◌⊎◌, ◌<◌, ◌≤◌, ◌++◌, ◌∷◌, [], length, not, true, Some, IfOk, OnOk, string_bytes};
ghost use Rattle.std.specs.List.{prefix_len};
ghost use Rattle.mail_world.specs.Site.{has_text};
ghost use Rattle.lmtp_text.specs.Sites.{owned, texts};
ghost use Rattle.lmtpd_setup.specs.Faults.{box_limit_of, is_usable_listed_name, is_usable_name, own_count, site_fault};
ghost use Rattle.lmtpd_setup.specs.Names.{IsFoundAt, IsNameLine, IsNoSite, IsPlace, IsToldOf, place_in, place_text};
ghost use Rattle.lmtpd_setup.specs.Names.{bad_place, shown_name, tells_names, twice_place, wrong_place};

use crate::fault::Fault;
use crate::stop::Stop;
use crate::usable::{is_usable_listed_name, is_usable_name};
use indexmap::IndexSet;
use itoa::Buffer;
use lmtpd_output::printable;
use lmtpd_words::{COMMAND_LINE_BOX_LIMIT, ServeWords, SiteWords, count_names, line_of_name};
use log::LevelFilter;
use mail_world::limits::BOX_LIMIT;
use std::alloc::{AllocError, Global};

/// The bytes that are shown of a name.
pub const SHOWN_LIMIT: usize = 60;

/// What ends a server whose site has that fault: where a name can't be used, and errors are logged or the words alone
/// are checked, it has the line of the log that says which.
pub fn refused_site<'a>(alloc: Global, words: &ServeWords<'_>, fault: Fault) -> Stop<'a>
    requires { (fault ≡ Fault.Memory) ⊎ (site_fault words.now.site ≡ Some fault) }
    ensures { IsNoSite words.now result }
{
    if tells_names(words) {
        told_site(alloc, &words.site, fault)
    } else {
        Stop::Fault(fault)
    }
}

fn tells_names(words: &ServeWords<'_>) -> bool
    ensures { result ≡ tells_names words.now }
{
    words.check_words || !matches!(words.log, LevelFilter::Off)
}

fn told_site<'a>(alloc: Global, words: &SiteWords<'_>, fault: Fault) -> Stop<'a>
    requires { (fault ≡ Fault.Memory) ⊎ (site_fault words.now ≡ Some fault) }
    ensures { (result ≡ Stop.Fault Fault.Memory) ⊎ IsToldOf words.now fault result }
{
    let limit = box_limit_of(words);
    let own = own_count(words);
    let number = match wrong_number(alloc, limit, words.mailbox_suffix, own, &words.boxes, fault) {
        Ok(Some(number)) => number,
        Ok(None) => return Stop::Fault(fault),
        Err(_) => return Stop::Fault(Fault::Memory),
    };
    match told_name(alloc, words, fault, number) {
        Ok(line) => Stop::Name(fault, line),
        Err(_) => Stop::Fault(Fault::Memory),
    }
}

// The number of the name that the fault is about, where there may be so many, if it is about one of these. The words have
// the first `own` themselves.
fn wrong_number(
    alloc: Global,
    limit: usize,
    suffix: &str,
    own: usize,
    names: &[&[u8]],
    fault: Fault,
) -> Result<Option<usize>, AllocError>
    requires { own ≤ length names.now }
    ensures { IfOk result (IsFoundAt (wrong_place limit suffix.now own fault (texts names.now)) (length names.now)) }
{
    match fault {
        Fault::Box => first_bad(alloc, suffix, own, names),
        Fault::TooManyBoxes => Ok(place_within(names, limit)),
        Fault::BoxTwice => first_twice(alloc, names),
        _ => Ok(None),
    }
}

fn place_within(names: &[&[u8]], place: usize) -> Option<usize>
    ensures { IsFoundAt place (length names.now) result }
{
    if place < names.len() {
        Some(place)
    } else {
        None
    }
}

/// The first of the names that no mailbox can have whose file has that suffix. The words have the first `own` themselves,
/// and the others are listed.
pub(crate) fn first_bad(
    alloc: Global,
    suffix: &str,
    own: usize,
    names: &[&[u8]],
) -> Result<Option<usize>, AllocError>
    requires { own ≤ length names.now }
    ensures { IfOk result (IsFoundAt (bad_place suffix.now own (texts names.now)) (length names.now)) }
{
    match first_bad_own(alloc, suffix, &names[..own])? {
        Some(place) => Ok(Some(place)),
        None => match first_bad_listed(alloc, suffix, &names[own..])? {
            Some(place) => Ok(Some(own + place)),
            None => Ok(None),
        },
    }
}

fn first_bad_own(alloc: Global, suffix: &str, names: &[&[u8]]) -> Result<Option<usize>, AllocError>
    ensures { IfOk result (IsFoundAt (prefix_len (is_usable_name suffix.now) (texts names.now)) (length names.now)) }
{
    for (place, name) in names.iter().enumerate() {
        if !is_usable_name(alloc, suffix, name)? {
            return Ok(Some(place));
        }
    }
    Ok(None)
}

fn first_bad_listed(
    alloc: Global,
    suffix: &str,
    names: &[&[u8]],
) -> Result<Option<usize>, AllocError>
    ensures { IfOk result
        (IsFoundAt (prefix_len (is_usable_listed_name suffix.now) (texts names.now)) (length names.now)) }
{
    for (place, name) in names.iter().enumerate() {
        if !is_usable_listed_name(alloc, suffix, name)? {
            return Ok(Some(place));
        }
    }
    Ok(None)
}

// The first that stands among those before it, each found by a hash.
fn first_twice(alloc: Global, names: &[&[u8]]) -> Result<Option<usize>, AllocError>
    ensures { IfOk result (IsFoundAt (twice_place [] (texts names.now)) (length names.now)) }
{
    let mut seen = IndexSet::with_capacity(alloc, names.len())?;
    for (number, name) in names.iter().enumerate() {
        if !add_name(alloc, &mut seen, name)? {
            return Ok(Some(number));
        }
    }
    Ok(None)
}

// Adds the name to those that were seen; false where it is among them, and then nothing changes.
fn add_name(alloc: Global, seen: &mut IndexSet<Vec<u8>>, name: &[u8]) -> Result<bool, AllocError>
    ensures is_new { IfOk result (λ is_new. is_new ≡ not (has_text (owned seen.old.keys) name.now)) }
    ensures more { IfOk result (λ is_new. is_new ≡ true → owned seen.new.keys ≡ owned seen.old.keys ++ name.now ∷ []) }
{
    Ok(seen.insert(name.to_vec(alloc)?)?)
}

// The line of the log on the name of that number.
fn told_name(
    alloc: Global,
    words: &SiteWords<'_>,
    fault: Fault,
    number: usize,
) -> Result<String, AllocError>
    requires place { number ≡ place_in words.now fault }
    requires within { number < length words.now.boxes.items }
    ensures { IfOk result (λ line. IsNameLine words.now fault (string_bytes line)) }
{
    let line = line_of(words, number);
    let mut text = String::new(alloc);
    text.push_str("[ERROR lmtpd] ")?;
    text.push_str(fault.text())?;
    text.push_str(" name=")?;
    push_name(&mut text, words.boxes[number])?;
    push_place(&mut text, words.boxes_file, line)?;
    text.push_str("\n")?;
    Ok(text)
}

fn push_name(text: &mut String, name: &[u8]) -> Result<(), AllocError>
    ensures { OnOk result (string_bytes text.new ≡ string_bytes text.old ++ shown_name name.now) }
{
    if name.len() > SHOWN_LIMIT {
        printable(&name[..SHOWN_LIMIT]).append_to(text)?;
        text.push_str("..")
    } else {
        printable(name).append_to(text)
    }
}

fn push_place(text: &mut String, path: Option<&str>, line: Option<usize>) -> Result<(), AllocError>
    ensures { OnOk result (string_bytes text.new ≡ string_bytes text.old ++ place_text path.entry line) }
{
    if let (Some(path), Some(line)) = (path, line) {
        text.push_str(" file=")?;
        printable(path.as_bytes()).append_to(text)?;
        text.push_str(" line=")?;
        let mut digits = Buffer::new();
        text.push_str(digits.format(line))?;
    }
    Ok(())
}

// The line of the file on which the mailbox of that number stands.
fn line_of(words: &SiteWords<'_>, number: usize) -> Option<usize>
    requires { number < length words.now.boxes.items }
    ensures { IsPlace words.now number result }
{
    let before = number.checked_sub(own_count(words))?;
    line_of_name(words.listed, before)
}

/// How many names the words have themselves.
pub(crate) fn own_count(words: &SiteWords<'_>) -> usize
    ensures value { result ≡ own_count words.now }
    ensures within { result ≤ length words.now.boxes.items }
{
    words.boxes.len().saturating_sub(count_names(words.listed))
}

/// How many mailboxes a server's words may name.
pub(crate) fn box_limit_of(words: &SiteWords<'_>) -> usize
    ensures value { result ≡ box_limit_of words.now }
    ensures most { result ≤ BOX_LIMIT }
{
    if own_count(words) > COMMAND_LINE_BOX_LIMIT {
        COMMAND_LINE_BOX_LIMIT
    } else {
        BOX_LIMIT
    }
}
