//! What a server is named and serves.

ghost use Rattle.std.specs.Prelude.{◌≡◌, ◌≤◌, ◌<◌, [], ◌++◌, Some, None, length, slice_get, unwrap_or, option_map, IfOk};
ghost use Rattle.std.specs.Prelude.{IfErr, IfSome, true, false};
ghost use Rattle.std.specs.List.{list_all};
ghost use Rattle.mail_world.specs.Site.{Fault, IsSite, IsDelimiter, IsMessageLimit, fault_of, box_name, is_delimiter};
ghost use Rattle.mail_world.specs.Site.{extensions_of, is_box_name, has_twice, listed_fault_of};
ghost use Rattle.mail_world.specs.Targets.{is_here, box_named, box_by_name, box_of, local_name, user_of, knows_domain};
ghost use Rattle.mail_world.specs.Targets.{first_at, box_of_local, box_of_postmaster};
ghost use Rattle.lmtp_text.specs.Seen.{seen_target};
ghost use Rattle.lmtp_text.specs.Sites.{texts, site_of, site_with, cause, owned, IsListedFault};

use crate::box_names::BoxNames;
use crate::command::Target;
use crate::first_addresses::FirstAddresses;
use crate::names::{is_listed, is_word, names, user_of};
use crate::rules::{are_listed_names, first_fault, first_listed_fault, has_twice};
use mail_world::Extensions;
use mail_world::limits::{BOX_LIMIT, BOX_NAME_LIMIT, MESSAGE_LIMIT, NAME_LIMIT};
use std::alloc::{AllocError, Global};
use std::marker::Model;
use thiserror::Error;

/// Why there is no such site.
#[derive(Clone, Copy, Debug, PartialEq, Eq, Error)]
pub enum SiteFault {
    #[error("out of memory")]
    Memory = 1,
    #[error("the host has 1 to 255 letters, digits, dashes and dots")]
    Host = 2,
    #[error("a domain is `*`, or has 1 to 255 letters, digits, dashes and dots")]
    Domain = 3,
    #[error("a mailbox has 1 to 32 of a-z, 0-9, dash, underscore and dot, and no dot at its front")]
    Box = 4,
    #[error("a site has 1 to 65536 mailboxes")]
    Count = 5,
    #[error("two mailboxes have the same name")]
    Twice = 6,
}

impl From<AllocError> for SiteFault {
    ghost use Rattle.lmtp_text.specs.declared.site.SiteFault.TheVariants.{Memory};

    ghost from_gives = { λ _ fault. fault ≡ Memory };

    fn from(_refused: AllocError) -> SiteFault {
        SiteFault::Memory
    }
}

/// A host, the further domains that it serves (`*` is each one), its mailboxes in their order, how many bytes a message
/// may have, the byte that parts user and detail of a recipient's address, if one does, whether addresses may be in
/// UTF-8, whether records have the marks in a message's head renamed, whether malformed messages are refused, whether
/// copies over a quota are refused for good, and whether a recipient may be told that its mailbox is busy.
#[derive(Drop)]
pub struct Site {
    host: Vec<u8>,
    domains: Vec<Vec<u8>>,
    boxes: BoxNames,
    firsts: FirstAddresses,
    message_limit: u32,
    recipient_delimiter: Option<u8>,
    utf8: bool,
    renames_marks: bool,
    refuses_malformed: bool,
    rejects_over_quota: bool,
    tells_busy: bool,
}

/// Whether user and detail of a recipient's address may be parted by this byte.
pub fn is_delimiter(byte: u8) -> bool
    ensures { result ≡ is_delimiter byte }
{
    b"+-=#~".contains(&byte)
}

impl Model for Site {
    ghost use Rattle.mail_world.specs.Site as m;

    ghost Value = { m.Site };

    ghost use Rattle.lmtp_text.specs.Sites.{owned, AreFirsts};

    ghost view = { λ s. record {
      host = s.host.items;
      domains = owned s.domains.items;
      boxes = s.boxes;
      message_limit = s.message_limit;
      recipient_delimiter = s.recipient_delimiter;
      utf8 = s.utf8;
      renames_marks = s.renames_marks;
      refuses_malformed = s.refuses_malformed;
      rejects_over_quota = s.rejects_over_quota;
      tells_busy = s.tells_busy;
    } };

    ghost invariant = { λ s. m.IsSite
        (record {
          host = s.host.items;
          domains = owned s.domains.items;
          boxes = s.boxes;
          message_limit = s.message_limit;
          recipient_delimiter = s.recipient_delimiter;
          utf8 = s.utf8;
          renames_marks = s.renames_marks;
          refuses_malformed = s.refuses_malformed;
          rejects_over_quota = s.rejects_over_quota;
          tells_busy = s.tells_busy;
        }) × AreFirsts s.boxes s.firsts };
}

fn copied(alloc: Global, names: &[&[u8]]) -> Result<Vec<Vec<u8>>, AllocError>
    ensures { IfOk result (λ v. owned v.items ≡ texts names.now) }
{
    let mut all = Vec::with_capacity(alloc, names.len())?;
    for name in names {
        all.push(name.to_vec(alloc)?)?;
    }
    Ok(all)
}

// The names of a site's mailboxes. That two are the same comes before lack of memory.
fn names_of(alloc: Global, boxes: &[&[u8]]) -> Result<BoxNames, SiteFault>
    requires { list_all is_box_name (texts boxes.now) ≡ true }
    ensures made { IfOk result (λ names. names ≡ texts boxes.now) }
    ensures once { IfOk result (λ names. has_twice (texts boxes.now) ≡ false) }
    ensures twice { has_twice (texts boxes.now) ≡ true → result ≡ Err SiteFault.Twice }
    ensures whole { has_twice (texts boxes.now) ≡ false → IfErr result (λ fault. fault ≡ SiteFault.Memory) }
{
    match BoxNames::of(alloc, boxes) {
        Ok(Some(names)) => Ok(names),
        Ok(None) => Err(SiteFault::Twice),
        Err(_) if has_twice(boxes) => Err(SiteFault::Twice),
        Err(_) => Err(SiteFault::Memory),
    }
}

impl Site {
    /// A site takes memory for its names; its messages have at most 1,048,576 bytes, it has no delimiter, offers no
    /// UTF-8, renames no marks, refuses no malformed messages, puts off copies over a quota and tells nobody that a
    /// mailbox is busy. Of several broken rules the answer is the first in the order `Host`, `Domain`, `Count`, `Box`,
    /// `Twice`.
    pub fn new(
        alloc: Global,
        host: &[u8],
        domains: &[&[u8]],
        boxes: &[&[u8]],
    ) -> Result<Site, SiteFault>
        ensures made { IfOk result (λ site. site ≡ site_of host.now domains.now boxes.now) }
        ensures sound { IfOk result IsSite }
        ensures broken { (rule : Fault) → fault_of (site_of host.now domains.now boxes.now) ≡ Some rule
            → result ≡ Err (cause rule) }
        ensures whole { fault_of (site_of host.now domains.now boxes.now) ≡ None
            → IfErr result (λ fault. fault ≡ SiteFault.Memory) }
    {
        if let Some(fault) = first_fault(host, domains, boxes) {
            return Err(fault);
        }
        let boxes = names_of(alloc, boxes)?;
        let site = Site::with_names(alloc, host, domains, boxes)?;
        Ok(site)
    }

    /// A site whose mailboxes' names a list has: each a local part of 1 to 64 bytes, or an address. It is else as `new`
    /// makes it. Lack of memory may come before `Twice`.
    pub fn of_list(
        alloc: Global,
        host: &[u8],
        domains: &[&[u8]],
        names: &[&[u8]],
    ) -> Result<Site, SiteFault>
        ensures made { IfOk result (λ site. site ≡ site_of host.now domains.now names.now) }
        ensures sound { IfOk result IsSite }
        ensures refused { IfErr result (IsListedFault (site_of host.now domains.now names.now)) }
    {
        if let Some(fault) = first_listed_fault(host, domains, names) {
            return Err(fault);
        }
        match BoxNames::of(alloc, names)? {
            Some(boxes) => Ok(Site::with_names(alloc, host, domains, boxes)?),
            None => Err(SiteFault::Twice),
        }
    }

    fn with_names(
        alloc: Global,
        host: &[u8],
        domains: &[&[u8]],
        boxes: BoxNames,
    ) -> Result<Site, AllocError>
        requires { listed_fault_of (site_with host.now (texts domains.now) boxes) ≡ None }
        ensures { IfOk result (λ site. site ≡ site_with host.now (texts domains.now) boxes) }
    {
        let host = host.to_vec(alloc)?;
        let domains = copied(alloc, domains)?;
        let firsts = FirstAddresses::of(alloc, &boxes)?;
        Ok(Site {
            host,
            domains,
            boxes,
            firsts,
            message_limit: MESSAGE_LIMIT,
            recipient_delimiter: None,
            utf8: false,
            renames_marks: false,
            refuses_malformed: false,
            rejects_over_quota: false,
            tells_busy: false,
        })
    }

    /// The same site with further mailboxes, whose names a list has: each a local part of 1 to 64 bytes, or an address.
    /// Of several broken rules the answer is the first in the order `Count`, `Box`, `Twice`, before which lack of memory
    /// may come.
    pub fn with_listed(self, alloc: Global, names: &[&[u8]]) -> Result<Site, SiteFault>
        ensures made { IfOk result (λ site. site ≡ record self { boxes = self.boxes ++ texts names.now }) }
        ensures sound { IfOk result IsSite }
        ensures refused { IfErr result (IsListedFault (record self { boxes = self.boxes ++ texts names.now })) }
    {
        if names.len() > BOX_LIMIT - self.boxes.len() {
            return Err(SiteFault::Count);
        }
        if !are_listed_names(names) {
            return Err(SiteFault::Box);
        }
        let mut boxes = self.boxes;
        if !boxes.add_all(alloc, names)? {
            return Err(SiteFault::Twice);
        }
        let firsts = FirstAddresses::of(alloc, &boxes)?;
        Ok(Site {
            boxes,
            firsts,
            ..self
        })
    }

    /// The same site with another limit for its messages, in bytes.
    pub fn with_message_limit(self, limit: u32) -> Site
        requires { IsMessageLimit limit }
        ensures { result ≡ record self { message_limit = limit } }
    {
        Site {
            message_limit: limit,
            ..self
        }
    }

    /// How many bytes a message may have (RFC 1870, 4).
    pub fn message_limit(&self) -> u32
        ensures value { result ≡ self.now.message_limit }
        ensures within { IsMessageLimit result }
    {
        self.message_limit
    }

    /// The same site with that delimiter: an address whose local part is no mailbox's name means what stands before the
    /// first such byte in it.
    pub fn with_recipient_delimiter(self, delimiter: u8) -> Site
        requires { IsDelimiter delimiter }
        ensures { result ≡ record self { recipient_delimiter = Some delimiter } }
    {
        Site {
            recipient_delimiter: Some(delimiter),
            ..self
        }
    }

    /// The byte that parts user and detail of a recipient's address, if one does (RFC 5233).
    pub fn recipient_delimiter(&self) -> Option<u8>
        ensures value { result ≡ self.now.recipient_delimiter }
        ensures known { IfSome result IsDelimiter }
    {
        self.recipient_delimiter
    }

    /// The same site that offers UTF-8 in addresses (SMTPUTF8, RFC 6531).
    pub fn with_utf8(self) -> Site
        ensures { result ≡ record self { utf8 = true } }
    {
        Site { utf8: true, ..self }
    }

    /// Whether addresses may be in UTF-8.
    pub fn utf8(&self) -> bool
        ensures { result ≡ self.now.utf8 }
    {
        self.utf8
    }

    /// What a command may use of the site's extensions.
    pub fn extensions(&self) -> Extensions
        ensures { result ≡ extensions_of self.now }
    {
        Extensions {
            message_limit: self.message_limit,
            utf8: self.utf8,
        }
    }

    /// The same site whose records have the marks in a message's head renamed.
    pub fn with_renamed_marks(self) -> Site
        ensures { result ≡ record self { renames_marks = true } }
    {
        Site {
            renames_marks: true,
            ..self
        }
    }

    /// Whether records have the marks in a message's head renamed.
    pub fn renames_marks(&self) -> bool
        ensures { result ≡ self.now.renames_marks }
    {
        self.renames_marks
    }

    /// The same site that refuses malformed messages: those with a NUL, with a blank at their front, or with a line
    /// above 8,190 bytes, of which each CR that no LF follows counts as seven.
    pub fn with_malformed_refused(self) -> Site
        ensures { result ≡ record self { refuses_malformed = true } }
    {
        Site {
            refuses_malformed: true,
            ..self
        }
    }

    /// Whether malformed messages are refused.
    pub fn refuses_malformed(&self) -> bool
        ensures { result ≡ self.now.refuses_malformed }
    {
        self.refuses_malformed
    }

    /// The same site that refuses copies over a quota for good (552, where it is 452 else).
    pub fn with_over_quota_rejected(self) -> Site
        ensures { result ≡ record self { rejects_over_quota = true } }
    {
        Site {
            rejects_over_quota: true,
            ..self
        }
    }

    /// Whether copies over a quota are refused for good.
    pub fn rejects_over_quota(&self) -> bool
        ensures { result ≡ self.now.rejects_over_quota }
    {
        self.rejects_over_quota
    }

    /// The same site that may tell a recipient that its mailbox is busy.
    pub fn with_busy_told(self) -> Site
        ensures { result ≡ record self { tells_busy = true } }
    {
        Site {
            tells_busy: true,
            ..self
        }
    }

    /// Whether a recipient may be told that its mailbox is busy.
    pub fn tells_busy(&self) -> bool
        ensures { result ≡ self.now.tells_busy }
    {
        self.tells_busy
    }

    /// The host's name.
    pub fn host(&self) -> &[u8]
        ensures value { result.now ≡ self.now.host }
        ensures size { length result.now ≤ NAME_LIMIT }
    {
        &self.host
    }

    /// How many mailboxes there are.
    pub fn box_count(&self) -> u32
        ensures value { result ≡ length self.now.boxes }
        ensures most { result ≤ BOX_LIMIT }
        ensures least { 0 < result }
    {
        self.boxes.len() as u32
    }

    /// The name of the mailbox with that number, counted from 0; empty where there is none.
    pub fn box_name(&self, i: u32) -> &[u8]
        ensures value { result.now ≡ box_name self.now i }
        ensures size { length result.now ≤ BOX_NAME_LIMIT }
    {
        self.boxes.at(i as usize)
    }

    /// The number of the mailbox that a recipient's address means, counted from 0 (RFC 5321, 4.5.1 for `postmaster`).
    /// It takes no memory.
    pub fn find(&self, target: &Target) -> Option<u32>
        ensures value { result ≡ box_of self.now (seen_target target.now) }
        ensures known { IfSome result (λ n. n < length self.now.boxes) }
    {
        match self.named(target) {
            Some(n) => Some(n),
            None => self.user_named(target),
        }
    }

    // The mailbox of the user in a local part that has none itself.
    fn user_named(&self, target: &Target) -> Option<u32>
        requires { box_by_name self.now (seen_target target.now) ≡ None }
        ensures value { result ≡ box_named self.now (seen_target target.now).domain
            (user_of self.now.recipient_delimiter (local_name (seen_target target.now))) }
        ensures known { IfSome result (λ n. n < length self.now.boxes) }
    {
        match self.recipient_delimiter {
            Some(delimiter) => self.named(&user_of(target, delimiter)),
            None => None,
        }
    }

    // The mailbox of the local part at the target's domain.
    fn named(&self, target: &Target) -> Option<u32>
        ensures value { result ≡ box_by_name self.now (seen_target target.now) }
        ensures known { IfSome result (λ n. n < length self.now.boxes) }
    {
        match self.boxes.place_of_address(target) {
            Some(place) => Some(place as u32),
            None => match self.local_named(target) {
                Some(n) => Some(n),
                None => self.postmaster_named(target),
            },
        }
    }

    fn local_named(&self, target: &Target) -> Option<u32>
        ensures value { result
            ≡ box_of_local self.now (seen_target target.now).domain (local_name (seen_target target.now)) }
        ensures known { IfSome result (λ n. n < length self.now.boxes) }
    {
        if !self.serves(target.domain) {
            return None;
        }
        match self.boxes.place_of_local(target) {
            Some(place) => Some(place as u32),
            None => None,
        }
    }

    fn postmaster_named(&self, target: &Target) -> Option<u32>
        ensures value { result
            ≡ box_of_postmaster self.now (seen_target target.now).domain (local_name (seen_target target.now)) }
        ensures known { IfSome result (λ n. n < length self.now.boxes) }
    {
        let _ = &self.host;
        if !names(target, b"postmaster") {
            None
        } else if self.serves(target.domain) {
            Some(0)
        } else {
            self.first_at(target.domain)
        }
    }

    // The mailbox of the first address at a domain.
    fn first_at(&self, domain: Option<&[u8]>) -> Option<u32>
        ensures value { result ≡ first_at self.now.boxes (option_map (λ d. d.now) domain.entry) }
        ensures known { IfSome result (λ n. n < length self.now.boxes) }
    {
        match domain {
            Some(domain) => match self.firsts.place_at(domain) {
                Some(place) => Some(place as u32),
                None => None,
            },
            None => None,
        }
    }

    /// Whether the domain is the site's, or an address names none; none in brackets is.
    pub fn serves(&self, domain: Option<&[u8]>) -> bool
        ensures { result ≡ is_here self.now (option_map (λ d. d.now) domain.entry) }
    {
        match domain {
            None => true,
            Some(domain) => is_word(domain, &self.host) || is_listed(domain, &self.domains),
        }
    }

    /// Whether the domain is the site's, or a listed address is at it.
    pub fn knows(&self, domain: Option<&[u8]>) -> bool
        ensures { result ≡ knows_domain self.now (option_map (λ d. d.now) domain.entry) }
    {
        self.serves(domain) || self.first_at(domain).is_some()
    }
}
