//! What a server says: on standard output where it listens and what it stored, on standard error which turns were
//! missed and what was over quotas.

ghost use Rattle.std.specs.Prelude.{◌≡◌, length, nat_le, string_bytes, IfOk, OnOk, OnErr};
ghost use Rattle.std.specs.Io.KnownBytes.{Appends};
ghost use Rattle.lmtpd_output.specs.Output.{IsCutOff, pair_texts};
ghost use Rattle.lmtpd_serve.specs.Served.{endpoint_line, count_line, count_told, counts_text, has_line, words_of};
ghost use Rattle.lmtpd_serve.specs.Served.{trouble_count, trouble_line, trouble_told, trouble_lines_of, trouble_lines};

use super::served::Served;
use itoa::Buffer;
use lmtp_house::{Endpoint, Tally};
use lmtp_text::Site;
use lmtpd_output::{WriteFault, write_each};
use std::alloc::{AllocError, Global};
use std::io::Write;

/// So many mailboxes have a line each for what they stored, also where that is nothing.
pub const FEW_BOXES: u32 = 256;

/// The line that says where the server listens.
pub fn endpoint_line(alloc: Global, endpoint: Endpoint<'_>) -> Result<String, AllocError>
    ensures { IfOk result (λ line. string_bytes line ≡ endpoint_line endpoint.entry) }
{
    match endpoint {
        Endpoint::Ip(address) => format!(in alloc; "listening on {address}\n"),
        Endpoint::Unix(path) => format!(in alloc; "listening on unix:{path}\n"),
    }
}

// Says of a mailbox how many copies it stored.
fn write_count<W: Write>(writer: &mut W, name: &[u8], tally: &Tally) -> Result<(), WriteFault>
    ensures ok { OnOk result (Appends (W.contents writer.old) (W.contents writer.new)
        (count_line name.now tally.now)) }
    ensures err { OnErr result (IsCutOff (W.contents writer.old) (W.contents writer.new)
        (count_line name.now tally.now)) }
{
    let mut digits = Buffer::new();
    let stored = digits.format(tally.stored);
    write_each(writer, &[name, b" stored ", stored.as_bytes(), b"\n"])
}

// Whether each mailbox of the site has a line.
fn has_few_boxes(site: &Site) -> bool
    ensures { result ≡ nat_le (length site.now.boxes) FEW_BOXES }
{
    site.box_count() <= FEW_BOXES
}

// Whether it is said how many copies a mailbox stored.
fn has_line(are_few: bool, tally: &Tally) -> bool
    ensures { result ≡ has_line are_few tally.now }
{
    are_few || tally.taken != 0
}

// Says of a mailbox how many copies it stored, where it has a line.
fn tell_count<W: Write>(
    writer: &mut W,
    are_few: bool,
    name: &[u8],
    tally: &Tally,
) -> Result<(), WriteFault>
    ensures ok { OnOk result (Appends (W.contents writer.old) (W.contents writer.new)
        (count_told are_few name.now tally.now)) }
    ensures err { OnErr result (IsCutOff (W.contents writer.old) (W.contents writer.new)
        (count_told are_few name.now tally.now)) }
{
    if !has_line(are_few, tally) {
        return Ok(());
    }
    write_count(writer, name, tally)
}

// The same of each mailbox of the site, in their order.
fn tell_counts<W: Write>(
    writer: &mut W,
    are_few: bool,
    site: &Site,
    tallies: &[Tally],
) -> Result<(), WriteFault>
    requires { length tallies.now ≡ length site.now.boxes }
    ensures ok { OnOk result (Appends (W.contents writer.old) (W.contents writer.new)
        (pair_texts (count_told are_few) site.now.boxes tallies.now)) }
    ensures err { OnErr result (IsCutOff (W.contents writer.old) (W.contents writer.new)
        (pair_texts (count_told are_few) site.now.boxes tallies.now)) }
{
    for number in 0..site.box_count() {
        let tally = &tallies[number as usize];
        tell_count(writer, are_few, site.box_name(number), tally)?;
    }
    Ok(())
}

/// Says of each mailbox of the site, in their order, how many copies it stored; where there are more than a few, of
/// those alone that took one. After a fault the writer has gained a prefix of these lines.
pub fn write_counts<W: Write>(
    writer: &mut W,
    site: &Site,
    tallies: &[Tally],
) -> Result<(), WriteFault>
    requires { length tallies.now ≡ length site.now.boxes }
    ensures ok { OnOk result (Appends (W.contents writer.old) (W.contents writer.new)
        (counts_text site.now.boxes tallies.now)) }
    ensures err { OnErr result (IsCutOff (W.contents writer.old) (W.contents writer.new)
        (counts_text site.now.boxes tallies.now)) }
{
    let are_few = has_few_boxes(site);
    tell_counts(writer, are_few, site, tallies)
}

/// The copies of a mailbox that an administrator is told of: those whose turn was missed while other programs had the
/// mailbox locked, or those over the quota.
#[derive(Clone, Copy, PartialEq, Eq)]
pub enum Trouble {
    InUse,
    OverQuota,
}

impl Trouble {
    fn count(self, tally: &Tally) -> u64
        ensures { result ≡ trouble_count self tally.now }
    {
        match self {
            Trouble::InUse => tally.in_use,
            Trouble::OverQuota => tally.over,
        }
    }

    fn words(self) -> &'static [u8]
        ensures { result.now ≡ words_of self }
    {
        match self {
            Trouble::InUse => b" in use ",
            Trouble::OverQuota => b" over quota ",
        }
    }
}

// The line of a mailbox with as many of the copies that these words name.
fn write_trouble_line<W: Write>(
    writer: &mut W,
    name: &[u8],
    words: &[u8],
    count: u64,
) -> Result<(), WriteFault>
    ensures ok { OnOk result (Appends (W.contents writer.old) (W.contents writer.new)
        (trouble_line words.now name.now count)) }
    ensures err { OnErr result (IsCutOff (W.contents writer.old) (W.contents writer.new)
        (trouble_line words.now name.now count)) }
{
    let mut digits = Buffer::new();
    let count = digits.format(count);
    write_each(writer, &[b"lmtpd: ", name, words, count.as_bytes(), b"\n"])
}

// Says of a mailbox how many of these copies it had, unless it had none.
fn write_trouble<W: Write>(
    writer: &mut W,
    trouble: Trouble,
    name: &[u8],
    tally: &Tally,
) -> Result<(), WriteFault>
    ensures ok { OnOk result (Appends (W.contents writer.old) (W.contents writer.new)
        (trouble_told trouble name.now tally.now)) }
    ensures err { OnErr result (IsCutOff (W.contents writer.old) (W.contents writer.new)
        (trouble_told trouble name.now tally.now)) }
{
    let count = trouble.count(tally);
    if count == 0 {
        return Ok(());
    }
    write_trouble_line(writer, name, trouble.words(), count)
}

// The same of each mailbox, in the order of the site.
fn write_all_of<W: Write>(
    writer: &mut W,
    trouble: Trouble,
    served: &Served,
) -> Result<(), WriteFault>
    ensures ok { OnOk result (Appends (W.contents writer.old) (W.contents writer.new)
        (trouble_lines_of trouble served.now)) }
    ensures err { OnErr result (IsCutOff (W.contents writer.old) (W.contents writer.new)
        (trouble_lines_of trouble served.now)) }
{
    let site: &Site = &served.site;
    for number in 0..site.box_count() {
        let tally = &served.tallies[number as usize];
        write_trouble(writer, trouble, site.box_name(number), tally)?;
    }
    Ok(())
}

/// Says of each mailbox, in the order of the site, how many turns were missed, unless none was, and then of each
/// how many copies were over its quota, unless none was. After a fault the writer has gained a prefix of these lines.
pub fn write_trouble_lines<W: Write>(writer: &mut W, served: &Served) -> Result<(), WriteFault>
    ensures ok { OnOk result (Appends (W.contents writer.old) (W.contents writer.new) (trouble_lines served.now)) }
    ensures err { OnErr result (IsCutOff (W.contents writer.old) (W.contents writer.new)
        (trouble_lines served.now)) }
{
    write_all_of(writer, Trouble::InUse, served)?;
    write_all_of(writer, Trouble::OverQuota, served)
}
