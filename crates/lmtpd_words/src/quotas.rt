//! The quota that a mailbox has of its own.

ghost use Rattle.std.specs.Prelude.{◌≡◌, ◌^◌, ◌<◌, ◌≤◌, length, true, IfOk, IfSome};
ghost use Rattle.std.specs.Char.{is_ascii_digit};
ghost use Rattle.std.specs.List.{list_all};
ghost use Rattle.std.specs.Option.{SomeIff};
ghost use Rattle.std.specs.Str.Parse.{digits_value};
ghost use Rattle.lmtpd_words.specs.Quotas.{bytes_of_word, counted, digit_count, quota_for, quota_of_word};
ghost use Rattle.lmtpd_words.specs.Quotas.{unit_by, unit_of};
ghost use Rattle.lmtpd_words.specs.Words.{quotas_for};

use crate::words::SiteWords;
use std::alloc::{AllocError, Global};

/// What a line that lists a mailbox says of its quota.
#[derive(Clone, Copy)]
pub enum BoxQuota {
    /// Nothing: the mailbox has the quota that is asked for all.
    Asked,
    /// It has none, whatever is asked for all.
    Unlimited,
    /// It may hold that many bytes.
    Bytes(u64),
}

impl<'a> SiteWords<'a> {
    /// The quota that counts for each mailbox, in their order, where this one is asked for all.
    pub fn quotas_for(
        &self,
        alloc: Global,
        asked: Option<u64>,
    ) -> Result<Vec<Option<u64>>, AllocError>
        ensures { IfOk result (λ all. all.items ≡ quotas_for asked self.now) }
    {
        let mut all = Vec::with_capacity(alloc, self.quotas.len())?;
        for own in &self.quotas {
            all.push(quota_for(asked, *own))?;
        }
        Ok(all)
    }
}

// The bytes that a mailbox may hold.
fn quota_for(asked: Option<u64>, own: BoxQuota) -> Option<u64>
    ensures { result ≡ quota_for asked own }
{
    match own {
        BoxQuota::Asked => asked,
        BoxQuota::Unlimited => None,
        BoxQuota::Bytes(bytes) => Some(bytes),
    }
}

/// What a word says, if it is a quota.
#[tactic(auto, unfolding(crate::specs::Quotas::quota_of_word))]
pub(crate) fn quota_of_word(word: &[u8]) -> Option<BoxQuota>
    ensures { result ≡ quota_of_word word.now }
{
    if word == b"-".as_slice() {
        Some(BoxQuota::Unlimited)
    } else {
        bytes_of_word(word)
    }
}

fn bytes_of_word(word: &[u8]) -> Option<BoxQuota>
    ensures { result ≡ bytes_of_word word.now }
{
    let count = digit_count(word);
    let unit = unit_of(&word[count..])?;
    counted(&word[..count], unit)
}

fn digit_count(word: &[u8]) -> usize
    ensures value { result ≡ digit_count word.now }
    ensures bound { result ≤ length word.now }
{
    word.iter()
        .position(|b| !b.is_ascii_digit())
        .unwrap_or(word.len())
}

fn unit_of(after: &[u8]) -> Option<u64>
    ensures value { result ≡ unit_of after.now }
    ensures counts { IfSome result (λ unit. 1 ≤ unit) }
{
    match after {
        [] => Some(1),
        [letter] => unit_by(*letter),
        _ => None,
    }
}

fn unit_by(letter: u8) -> Option<u64>
    ensures value { result ≡ unit_by letter }
    ensures counts { IfSome result (λ unit. 1 ≤ unit) }
{
    match letter {
        b'K' => Some(1 << 10),
        b'M' => Some(1 << 20),
        b'G' => Some(1 << 30),
        _ => None,
    }
}

// As many of these units as the digits write.
fn counted(digits: &[u8], unit: u64) -> Option<BoxQuota>
    requires are_digits { list_all is_ascii_digit digits.now ≡ true }
    requires counts { 1 ≤ unit }
    ensures { result ≡ counted digits.now unit }
{
    if digits.is_empty() {
        return None;
    }
    let bytes = value_of_digits(digits)?.checked_mul(unit)?;
    Some(BoxQuota::Bytes(bytes))
}

// The number that the digits write, where it is below 2^64.
fn value_of_digits(digits: &[u8]) -> Option<u64>
    requires { list_all is_ascii_digit digits.now ≡ true }
    ensures { SomeIff result (digits_value 10 digits.now < 2 ^ 64) (digits_value 10 digits.now) }
{
    let mut number: u128 = 0;
    for digit in digits {
        number = (number * 10 + u128::from(*digit - b'0')).min(1 << 64);
    }
    u64::try_from(number).ok()
}
