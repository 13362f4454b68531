//! The mailboxes that a text lists, one a line: its name, and after blanks its own quota, where it has one.

ghost use Rattle.std.specs.Prelude.{◌≡◌, ◌==◌, ◌++◌, ◌≤◌, length, MatchOption, OnOk};
ghost use Rattle.std.specs.List.{before_first, prefix_len};
ghost use Rattle.lmtp_text.specs.Sites.{texts};
ghost use Rattle.lmtpd_words.specs.Boxes.{IsLineOfName, is_blank, listed_boxes, listed_in, listed_quotas, name_in};
ghost use Rattle.lmtpd_words.specs.Boxes.{is_named, quota_in, text_in, without_blanks, word_len};
ghost use Rattle.lmtpd_words.specs.Words.{HasListed};

use crate::quotas::{BoxQuota, quota_of_word};
use crate::words::SiteWords;
use bstr::ByteSlice;
use std::alloc::AllocError;

impl<'a> SiteWords<'a> {
    /// Adds the mailboxes that the text lists, after those of the words, each with its own quota. Where memory is
    /// lacking, the first of them alone may have been added.
    pub fn add_listed(&mut self, text: &'a [u8]) -> Result<(), AllocError>
        ensures { OnOk result (HasListed text.now self.old self.new) }
    {
        add_listed(&mut self.boxes, &mut self.quotas, text)?;
        self.listed = text;
        Ok(())
    }
}

fn add_listed<'a>(
    names: &mut Vec<&'a [u8]>,
    quotas: &mut Vec<BoxQuota>,
    text: &'a [u8],
) -> Result<(), AllocError>
    requires { length quotas.old.items ≡ length names.old.items }
    ensures names { OnOk result (texts names.new.items ≡ texts names.old.items ++ listed_boxes text.now) }
    ensures quotas { OnOk result (quotas.new.items ≡ quotas.old.items ++ listed_quotas text.now) }
    ensures matched { length quotas.new.items ≡ length names.new.items }
{
    for line in text.split(|b| *b == b'\n') {
        let (name, quota) = listed_on(line);
        if !name.is_empty() {
            names.reserve(1)?;
            quotas.push(quota)?;
            names.push_reserved(name);
        }
    }
    Ok(())
}

/// How many mailboxes the text lists.
pub fn count_names(text: &[u8]) -> usize
    ensures { result ≡ length (listed_boxes text.now) }
{
    text.split(|b| *b == b'\n')
        .filter(|line| lists_box(line))
        .count()
}

/// The line on which the text has the name of that number: lines are counted from 1, and names from 0.
pub fn line_of_name(text: &[u8], number: usize) -> Option<usize>
    ensures { MatchOption result (length (listed_boxes text.now) ≤ number) (IsLineOfName text.now number) }
{
    let mut names = 0;
    let mut lines = 0;
    for line in text.split(|b| *b == b'\n') {
        lines += 1;
        if lists_box(line) {
            if names == number {
                return Some(lines);
            }
            names += 1;
        }
    }
    None
}

fn lists_box(line: &[u8]) -> bool
    ensures { result ≡ is_named (name_in line.now) }
{
    !listed_on(line).0.is_empty()
}

// The name that a line lists, which is empty where it lists none, and the mailbox's own quota.
#[tactic(auto, unfolding(crate::specs::Boxes::name_in, crate::specs::Boxes::quota_in))]
fn listed_on(line: &[u8]) -> (&[u8], BoxQuota)
    ensures name { result.0.now ≡ name_in line.now }
    ensures quota { result.1 ≡ quota_in line.now }
{
    listed_in(text_in(line))
}

fn listed_in(text: &[u8]) -> (&[u8], BoxQuota)
    ensures { (result.0.now, result.1) ≡ listed_in text.now }
{
    let end = word_len(text);
    match quota_of_word(without_blanks(&text[end..])) {
        Some(quota) => (&text[..end], quota),
        None => (text, BoxQuota::Asked),
    }
}

fn word_len(text: &[u8]) -> usize
    ensures value { result ≡ word_len text.now }
    ensures bound { result ≤ length text.now }
{
    text.iter().position(|b| is_blank(*b)).unwrap_or(text.len())
}

fn without_blanks(text: &[u8]) -> &[u8]
    ensures { result.now ≡ without_blanks text.now }
{
    &text[blank_len(text)..]
}

fn blank_len(text: &[u8]) -> usize
    ensures value { result ≡ prefix_len is_blank text.now }
    ensures bound { result ≤ length text.now }
{
    text.iter()
        .position(|b| !is_blank(*b))
        .unwrap_or(text.len())
}

fn is_blank(b: u8) -> bool
    ensures { result ≡ is_blank b }
{
    b == b' ' || b == b'\t'
}

// The text in a line, without a comment and white space around it.
fn text_in(line: &[u8]) -> &[u8]
    ensures { result.now ≡ text_in line.now }
{
    before_comment(line).trim_ascii()
}

fn before_comment(line: &[u8]) -> &[u8]
    ensures { result.now ≡ before_first (λ b. b == 35) line.now }
{
    match line.find_byte(b'#') {
        Some(at) => &line[..at],
        None => line,
    }
}
