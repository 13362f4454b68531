//! The site that the program's words name.

ghost use Rattle.std.specs.Prelude.{◌≡◌, ◌<◌, ◌≤◌, ◌⊎◌, true, false, length, take, drop, Some, None, IfErr, IfOk};
ghost use Rattle.std.specs.Prelude.{MatchResult};
ghost use Rattle.std.specs.Arc.{arc_value};
ghost use Rattle.mail_world.specs.Site.{IsSite, is_box_name, is_listed_name};
ghost use Rattle.mail_world.specs.declared.limits.TheConstants.{BOX_LIMIT};
ghost use Rattle.std.specs.List.{list_all};
ghost use Rattle.lmtp_text.specs.Sites.{site_of, texts};
ghost use Rattle.lmtpd_words.specs.Words.{named_site, serving_site};
ghost use Rattle.lmtpd_setup.specs.Faults.{IsTwiceOrMemory, are_usable_names, fault_within, first_fault, host_fault};
ghost use Rattle.lmtpd_setup.specs.Faults.{names_fault, site_fault};
ghost use Rattle.lmtpd_setup.specs.Names.{IsNoSite};

use crate::fault::Fault;
use crate::names::{box_limit_of, first_bad, own_count, refused_site};
use crate::stop::Stop;
use lmtp_text::{Site, SiteFault};
use lmtpd_words::{ServeWords, SiteWords};
use std::alloc::{AllocError, Global};
use std::sync::Arc;

/// The site of these words, which may name so many mailboxes. That there is one is looked at first, and host and domains
/// next; then each name is tried alone, so that a bad one comes before too many.
pub fn site_of(alloc: Global, words: &SiteWords, limit: usize) -> Result<Site, Fault>
    requires { limit ≤ BOX_LIMIT }
    ensures made { IfOk result (λ site. site ≡ named_site words.now) }
    ensures sound { IfOk result IsSite }
    ensures order { MatchResult result (λ _. fault_within limit words.now ≡ None)
        (λ fault. (fault ≡ Fault.Memory) ⊎ (fault_within limit words.now ≡ Some fault)) }
{
    let domains = bytes_of(alloc, &words.domains)?;
    let host = words.host.as_bytes();
    let own = own_count(words);
    let site = make_site(
        alloc,
        host,
        &domains,
        words.mailbox_suffix,
        own,
        &words.boxes,
        limit,
    )?;
    let site = site.with_message_limit(words.message_limit);
    let site = with_utf8_where_asked(site, words.smtputf8);
    let site = with_renamed_marks_where_asked(site, words.rename_marks);
    let site = with_malformed_refused_where_asked(site, words.refuse_malformed);
    let site = with_over_quota_rejected_where_asked(site, words.reject_over_quota);
    match words.recipient_delimiter {
        Some(delimiter) => Ok(site.with_recipient_delimiter(delimiter)),
        None => Ok(site),
    }
}

#[tactic(auto, using(crate::proofs::Asked::same_utf8))]
fn with_utf8_where_asked(site: Site, is_asked: bool) -> Site
    requires { site.utf8 ≡ false }
    ensures { result ≡ record site { utf8 = is_asked } }
{
    if is_asked { site.with_utf8() } else { site }
}

#[tactic(auto, using(crate::proofs::Asked::same_marks))]
fn with_renamed_marks_where_asked(site: Site, is_asked: bool) -> Site
    requires { site.renames_marks ≡ false }
    ensures { result ≡ record site { renames_marks = is_asked } }
{
    if is_asked {
        site.with_renamed_marks()
    } else {
        site
    }
}

#[tactic(auto, using(crate::proofs::Asked::same_refusals))]
fn with_malformed_refused_where_asked(site: Site, is_asked: bool) -> Site
    requires { site.refuses_malformed ≡ false }
    ensures { result ≡ record site { refuses_malformed = is_asked } }
{
    if is_asked {
        site.with_malformed_refused()
    } else {
        site
    }
}

#[tactic(auto, using(crate::proofs::Asked::same_quotas))]
fn with_over_quota_rejected_where_asked(site: Site, is_asked: bool) -> Site
    requires { site.rejects_over_quota ≡ false }
    ensures { result ≡ record site { rejects_over_quota = is_asked } }
{
    if is_asked {
        site.with_over_quota_rejected()
    } else {
        site
    }
}

/// The site of a server's words, to be shared by threads, or what ends the server.
pub fn served_site<'a>(alloc: Global, words: &ServeWords<'_>) -> Result<Arc<Site>, Stop<'a>>
    ensures { MatchResult result
        (λ site. (arc_value site ≡ serving_site words.now.site) × (site_fault words.now.site ≡ None))
        (IsNoSite words.now) }
{
    match shared_site(alloc, &words.site) {
        Ok(site) => Ok(site),
        Err(fault) => Err(refused_site(alloc, words, fault)),
    }
}

fn shared_site(alloc: Global, words: &SiteWords) -> Result<Arc<Site>, Fault>
    ensures { MatchResult result
        (λ site. (arc_value site ≡ serving_site words.now) × (site_fault words.now ≡ None))
        (λ fault. (fault ≡ Fault.Memory) ⊎ (site_fault words.now ≡ Some fault)) }
{
    let site = site_of(alloc, words, box_limit_of(words))?.with_busy_told();
    Ok(Arc::new(alloc, site)?)
}

fn bytes_of<'a>(alloc: Global, names: &[&'a str]) -> Result<Vec<&'a [u8]>, AllocError>
    ensures { IfOk result (λ v. texts v.items ≡ texts names.now) }
{
    let mut all = Vec::with_capacity(alloc, names.len())?;
    for name in names {
        all.push(name.as_bytes())?;
    }
    Ok(all)
}

// The words have the first `own` names themselves, and the others are listed.
fn make_site(
    alloc: Global,
    host: &[u8],
    domains: &[&[u8]],
    suffix: &str,
    own: usize,
    boxes: &[&[u8]],
    limit: usize,
) -> Result<Site, Fault>
    requires least { limit ≤ BOX_LIMIT }
    requires own { own ≤ length boxes.now }
    ensures made { IfOk result (λ site. site ≡ site_of host.now domains.now boxes.now) }
    ensures sound { IfOk result IsSite }
    ensures order { let site = site_of host.now domains.now boxes.now in
        MatchResult result (λ _. first_fault limit suffix.now own site ≡ None)
        (λ fault. (fault ≡ Fault.Memory) ⊎ (first_fault limit suffix.now own site ≡ Some fault)) }
{
    if boxes.is_empty() {
        return Err(Fault::NoBox);
    }
    try_host(alloc, host, domains)?;
    try_each_box(alloc, suffix, own, boxes, limit)?;
    let site = site_of_names(alloc, host, domains, own, boxes)?;
    Ok(site)
}

// Whether a site can have that host and those further domains.
fn try_host(alloc: Global, host: &[u8], domains: &[&[u8]]) -> Result<(), Fault>
    ensures { MatchResult result (λ _. host_fault host.now (texts domains.now) ≡ None)
        (λ fault. (fault ≡ Fault.Memory) ⊎ (host_fault host.now (texts domains.now) ≡ Some fault)) }
{
    let _site = Site::new(alloc, host, domains, &[b"a"])?;
    Ok(())
}

// Each name is tried alone, and their number comes after that.
fn try_each_box(
    alloc: Global,
    suffix: &str,
    own: usize,
    boxes: &[&[u8]],
    limit: usize,
) -> Result<(), Fault>
    requires { own ≤ length boxes.now }
    ensures { MatchResult result
        (λ _. (are_usable_names suffix.now own (texts boxes.now) ≡ true) × (length boxes.now ≤ limit))
        (λ fault. (fault ≡ Fault.Memory) ⊎ (names_fault limit suffix.now own (texts boxes.now) ≡ Some fault)) }
{
    match first_bad(alloc, suffix, own, boxes)? {
        Some(_) => Err(Fault::Box),
        None if boxes.len() > limit => Err(Fault::TooManyBoxes),
        None => Ok(()),
    }
}

// The site of names that are all good, but where two may be the same.
fn site_of_names(
    alloc: Global,
    host: &[u8],
    domains: &[&[u8]],
    own: usize,
    boxes: &[&[u8]],
) -> Result<Site, SiteFault>
    requires host { host_fault host.now (texts domains.now) ≡ None }
    requires count { (0 < length boxes.now) × (length boxes.now ≤ BOX_LIMIT) }
    requires within { own ≤ length boxes.now }
    requires own { list_all is_box_name (take own (texts boxes.now)) ≡ true }
    requires listed { list_all is_listed_name (drop own (texts boxes.now)) ≡ true }
    ensures made { IfOk result (λ site. site ≡ site_of host.now domains.now boxes.now) }
    ensures sound { IfOk result IsSite }
    ensures refused { IfErr result (IsTwiceOrMemory (texts boxes.now)) }
{
    let listed = &boxes[own..];
    if own == 0 {
        return Site::of_list(alloc, host, domains, listed);
    }
    let site = Site::new(alloc, host, domains, &boxes[..own])?;
    site.with_listed(alloc, listed)
}
