//! The rules for what a site is named and serves.

ghost use Rattle.std.specs.Prelude.{◌≡◌, length, option_map, IfSome, IfNone, Some, None, if◌then◌else◌, true};
ghost use Rattle.std.specs.List.{list_all};
ghost use Rattle.mail_world.specs.Grammar.{is_between};
ghost use Rattle.mail_world.specs.Site.{is_host_name, is_domain_name, is_box_name, has_text, has_twice, fault_of};
ghost use Rattle.mail_world.specs.Site.{NamedTwice, is_listed_local, is_listed_domain, is_listed_name, listed_fault_of};
ghost use Rattle.lmtp_text.specs.Sites.{texts, site_of, cause, is_of_host_name, is_of_box_name, is_of_listed_local};
ghost use Rattle.lmtp_text.specs.Sites.{is_of_listed_domain, fault_of_others};

use crate::cut::{begins_with_byte, cut_at};
use crate::names::is_any_domain;
use crate::site::SiteFault;
use mail_world::limits::{BOX_LIMIT, GIVEN_NAME_LIMIT, LISTED_LOCAL_LIMIT, NAME_LIMIT};

fn is_of_host_name(b: u8) -> bool
    ensures { result ≡ is_of_host_name b }
{
    b.is_ascii_alphanumeric() || b"-.".contains(&b)
}

fn is_of_box_name(b: u8) -> bool
    ensures { result ≡ is_of_box_name b }
{
    b.is_ascii_lowercase() || b.is_ascii_digit() || b"-_.".contains(&b)
}

fn is_of_listed_local(b: u8) -> bool
    ensures { result ≡ is_of_listed_local b }
{
    b.is_ascii_lowercase() || b.is_ascii_digit() || b"-_.'+=".contains(&b)
}

fn is_of_listed_domain(b: u8) -> bool
    ensures { result ≡ is_of_listed_domain b }
{
    b.is_ascii_lowercase() || b.is_ascii_digit() || b"-.".contains(&b)
}

fn has_size(text: &[u8], most: usize) -> bool
    ensures { result ≡ is_between 1 most (length text.now) }
{
    !text.is_empty() && text.len() <= most
}

fn is_made_for_host(text: &[u8]) -> bool
    ensures { result ≡ list_all is_of_host_name text.now }
{
    text.iter().all(|b| is_of_host_name(*b))
}

fn is_made_for_box(text: &[u8]) -> bool
    ensures { result ≡ list_all is_of_box_name text.now }
{
    text.iter().all(|b| is_of_box_name(*b))
}

fn is_made_for_listed_local(text: &[u8]) -> bool
    ensures { result ≡ list_all is_of_listed_local text.now }
{
    text.iter().all(|b| is_of_listed_local(*b))
}

fn is_made_for_listed_domain(text: &[u8]) -> bool
    ensures { result ≡ list_all is_of_listed_domain text.now }
{
    text.iter().all(|b| is_of_listed_domain(*b))
}

fn is_host_name(text: &[u8]) -> bool
    ensures { result ≡ is_host_name text.now }
{
    has_size(text, NAME_LIMIT) && is_made_for_host(text)
}

fn is_box_name(text: &[u8]) -> bool
    ensures { result ≡ is_box_name text.now }
{
    has_size(text, GIVEN_NAME_LIMIT) && !begins_with_byte(text, b'.') && is_made_for_box(text)
}

fn is_listed_local(text: &[u8]) -> bool
    ensures { result ≡ is_listed_local text.now }
{
    has_size(text, LISTED_LOCAL_LIMIT)
        && !begins_with_byte(text, b'.')
        && is_made_for_listed_local(text)
}

fn is_listed_domain(text: &[u8]) -> bool
    ensures { result ≡ is_listed_domain text.now }
{
    has_size(text, NAME_LIMIT) && !begins_with_byte(text, b'.') && is_made_for_listed_domain(text)
}

/// Whether a list may have the name: a local part, or an address.
fn is_listed_name(text: &[u8]) -> bool
    ensures { result ≡ is_listed_name text.now }
{
    match cut_at(text, b'@') {
        Some((local, domain)) => is_listed_local(local) && is_listed_domain(domain),
        None => is_listed_local(text),
    }
}

fn is_domain_name(text: &[u8]) -> bool
    ensures { result ≡ is_domain_name text.now }
{
    is_any_domain(text) || is_host_name(text)
}

fn are_domain_names(names: &[&[u8]]) -> bool
    ensures { result ≡ list_all is_domain_name (texts names.now) }
{
    names.iter().all(|name| is_domain_name(name))
}

fn are_box_names(names: &[&[u8]]) -> bool
    ensures { result ≡ list_all is_box_name (texts names.now) }
{
    names.iter().all(|name| is_box_name(name))
}

/// Whether a list may have each of the names.
pub(crate) fn are_listed_names(names: &[&[u8]]) -> bool
    ensures { result ≡ list_all is_listed_name (texts names.now) }
{
    names.iter().all(|name| is_listed_name(name))
}

fn has_text(names: &[&[u8]], text: &[u8]) -> bool
    ensures { result ≡ has_text (texts names.now) text.now }
{
    names.iter().any(|name| *name == text)
}

/// Two of these names are the same. It takes no memory, and compares each with each: it is for where memory is lacking.
pub(crate) fn has_twice(names: &[&[u8]]) -> bool
    ensures { result ≡ has_twice (texts names.now) }
{
    match names {
        [] => false,
        [first, rest @ ..] => has_text(rest, first) || has_twice(rest),
    }
}

/// The first rule but `Twice` that a site of these names would break, each given by itself.
pub(crate) fn first_fault(host: &[u8], domains: &[&[u8]], boxes: &[&[u8]]) -> Option<SiteFault>
    ensures some { IfSome result (λ fault.
        option_map cause (fault_of (site_of host.now domains.now boxes.now)) ≡ Some fault) }
    ensures none { IfNone result (fault_of (site_of host.now domains.now boxes.now)
        ≡ (if has_twice (texts boxes.now) then Some NamedTwice else None)) }
    ensures named { IfNone result (list_all is_box_name (texts boxes.now) ≡ true) }
{
    if let Some(fault) = first_fault_of_others(host, domains, boxes.len()) {
        Some(fault)
    } else if !are_box_names(boxes) {
        Some(SiteFault::Box)
    } else {
        None
    }
}

/// The first rule but `Twice` that a site of these names would break, which a list has.
pub(crate) fn first_listed_fault(
    host: &[u8],
    domains: &[&[u8]],
    boxes: &[&[u8]],
) -> Option<SiteFault>
    ensures some { IfSome result (λ fault.
        option_map cause (listed_fault_of (site_of host.now domains.now boxes.now)) ≡ Some fault) }
    ensures none { IfNone result (listed_fault_of (site_of host.now domains.now boxes.now)
        ≡ (if has_twice (texts boxes.now) then Some NamedTwice else None)) }
    ensures named { IfNone result (list_all is_listed_name (texts boxes.now) ≡ true) }
{
    if let Some(fault) = first_fault_of_others(host, domains, boxes.len()) {
        Some(fault)
    } else if !are_listed_names(boxes) {
        Some(SiteFault::Box)
    } else {
        None
    }
}

// The first rule that host, domains and how many mailboxes there are would break.
fn first_fault_of_others(host: &[u8], domains: &[&[u8]], count: usize) -> Option<SiteFault>
    ensures { result ≡ fault_of_others host.now (texts domains.now) count }
{
    if !is_host_name(host) {
        Some(SiteFault::Host)
    } else if !are_domain_names(domains) {
        Some(SiteFault::Domain)
    } else if !(1..=BOX_LIMIT).contains(&count) {
        Some(SiteFault::Count)
    } else {
        None
    }
}
