//! The domains that clients of a lane named and that aren't served: which of them are told.

ghost use Rattle.std.specs.Prelude.{◌≡◌, ◌≤◌, vec_capacity};
ghost use Rattle.lmtpd_log.specs.Told.{is_hour_over, was_told};
ghost use Rattle.lmtpd_log.specs.declared.unserved.TheConstants.{DOMAIN_LIMIT};

use mail_head::Text;
use mail_world::limits::NAME_LIMIT;
use std::alloc::{AllocError, Global};
use std::time::Duration;

/// The domains that a lane keeps, and tells within an hour.
const DOMAIN_LIMIT: usize = 100;

const HOUR_SECONDS: u64 = 3_600;

/// The domains that were told in the hour under way, in memory that is taken once.
#[derive(Drop)]
pub(crate) struct Unserved {
    domains: Vec<Text<NAME_LIMIT>>,
    ghost room: { vec_capacity domains ≡ DOMAIN_LIMIT },
    // when the hour began
    began: Duration,
}

impl Unserved {
    ghost use Rattle.std.specs.Prelude.{◌⊎◌, ◌++◌, ◌∷◌, [], true, false, length, take, IfOk};
    ghost use Rattle.mail_world.specs.declared.limits.TheConstants.{NAME_LIMIT};
    ghost use Rattle.lmtpd_log.specs.Unserved.{begins_hour, began_at, has_told, texts_of, told_domains, told_within};

    /// None yet. No other call takes memory.
    pub(crate) fn new(alloc: Global) -> Result<Unserved, AllocError>
        ensures { IfOk result (λ unserved. told_domains unserved ≡ []) }
    {
        Ok(Unserved {
            domains: Vec::with_capacity(alloc, DOMAIN_LIMIT)?,
            began: Duration::ZERO,
        })
    }

    /// Whether the domain is to be told at that moment: the first time in an hour, for as many domains as are kept.
    pub(crate) fn is_to_tell(&mut self, domain: &[u8], now: Duration) -> bool
        ensures kept { result ≡ true → told_domains self.new
            ≡ texts_of (told_within self.old now) ++ take NAME_LIMIT domain.now ∷ [] }
        ensures first { result ≡ true → was_told (told_within self.old now) domain.now ≡ false }
        ensures as_before { result ≡ false → told_domains self.new ≡ texts_of (told_within self.old now) }
        ensures refused { result ≡ false → (DOMAIN_LIMIT ≤ length (told_within self.old now))
            ⊎ (was_told (told_within self.old now) domain.now ≡ true) }
        ensures hour { self.new.began ≡ began_at self.old now }
        ensures within { length (told_domains self.new) ≤ DOMAIN_LIMIT }
    {
        self.begin_hour(now);
        self.keep(domain)
    }

    // Forgets the domains of an hour that is over.
    fn begin_hour(&mut self, now: Duration)
        ensures domains { self.new.domains.items ≡ told_within self.old now }
        ensures hour { self.new.began ≡ began_at self.old now }
    {
        if self.begins_hour(now) {
            self.domains.clear();
            self.began = now;
        }
    }

    // Whether an hour begins at that moment.
    fn begins_hour(&self, now: Duration) -> bool
        ensures { result ≡ begins_hour self.now now }
    {
        self.domains.is_empty() || is_hour_over(self.began, now)
    }

    // Keeps the domain where there is room and it isn't kept yet, and says whether it did.
    fn keep(&mut self, domain: &[u8]) -> bool
        ensures kept { result ≡ true → told_domains self.new ≡ told_domains self.old ++ take NAME_LIMIT domain.now ∷ [] }
        ensures first { result ≡ true → has_told self.old domain.now ≡ false }
        ensures as_before { result ≡ false → told_domains self.new ≡ told_domains self.old }
        ensures refused { result ≡ false → (DOMAIN_LIMIT ≤ length self.old.domains.items)
            ⊎ (has_told self.old domain.now ≡ true) }
        ensures hour { self.new.began ≡ self.old.began }
        ensures within { length (told_domains self.new) ≤ DOMAIN_LIMIT }
    {
        if self.domains.len() >= DOMAIN_LIMIT || was_told(&self.domains, domain) {
            return false;
        }
        self.domains.push_reserved(Text::of(domain));
        true
    }
}

// Whether an hour has passed between these moments.
fn is_hour_over(began: Duration, now: Duration) -> bool
    ensures { result ≡ is_hour_over began now }
{
    now.saturating_sub(began).as_secs() >= HOUR_SECONDS
}

// In any letter case.
fn was_told(domains: &[Text<NAME_LIMIT>], domain: &[u8]) -> bool
    ensures { result ≡ was_told domains.now domain.now }
{
    domains
        .iter()
        .any(|told| told.text().eq_ignore_ascii_case(domain))
}
