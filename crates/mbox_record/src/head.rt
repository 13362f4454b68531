//! The head of a record: the From line and the trace lines, and how long a record is that begins so.
ghost use Rattle.std.specs.Prelude.{◌≡◌, ◌≤◌, ◌<◌, ◌+◌, ◌^◌, ◌++◌, ℕ, List, [], length, take, codes};
ghost use Rattle.std.specs.Prelude.{if◌then◌else◌, SomeIff};
ghost use Rattle.mail_world.specs.Text.{has_byte};
ghost use Rattle.mail_world.specs.Marks.{plain_address};
ghost use Rattle.mail_world.specs.Records.{from_address, protocol};
ghost use Rattle.mail_writing.specs.Calendar.{civil_at};
ghost use Rattle.mail_world.specs.Site.{Site};
ghost use Rattle.mbox_record.specs.Envelope.{Envelope, address_line, from_line, record_text};
ghost use Rattle.mbox_record.specs.Lengths.{lengths_of};
ghost use Rattle.mbox_record.specs.Parts.{origin, id_text, date_line};
ghost use Rattle.mbox_record.specs.RecordHead.{HasAdded, head_of};

use crate::envelope::Envelope;
use crate::lengths::Lengths;
use itoa::Buffer;
use lmtp_text::Site;
use mail_world::Txn;
use mail_world::limits::{NAME_LIMIT, PATH_LIMIT};
use mail_writing::{Stamp, stamp_5322, stamp_ctime};
use std::marker::Model;

/// Room for the longest head, which has 1,159 bytes.
const HEAD_LIMIT: usize = 1_280;

/// The head of a record as a text that lies in the value itself: the From line and the trace lines (RFC 4155, Appendix
/// A; RFC 5321, 4.4). It is formatted once, for the record's length and for the record.
#[derive(Drop)]
pub struct RecordHead {
    bytes: [u8; HEAD_LIMIT],
    size: usize,
    renames_marks: bool,
}

impl Model for RecordHead {
    ghost use Rattle.std.specs.Prelude.{◌≤◌, take};
    ghost use Rattle.mbox_record.specs.RecordHead.{RecordHead as Head};
    ghost use Rattle.mbox_record.specs.declared.head.TheConstants.{HEAD_LIMIT};

    ghost Value = { Head };

    ghost view = { λ h. record { text = take h.size h.bytes; renames_marks = h.renames_marks } };

    ghost invariant = { λ h. h.size ≤ HEAD_LIMIT };
}

impl RecordHead {
    /// That of a copy under the envelope, at the site.
    pub fn of(site: &Site, envelope: &Envelope) -> RecordHead
        ensures { result ≡ head_of civil_at site.now envelope.now }
    {
        let stamp = Stamp::of_unix(envelope.moment());
        let mut head = RecordHead {
            bytes: [0; HEAD_LIMIT],
            size: 0,
            renames_marks: site.renames_marks(),
        };
        head.add_from_line(site, envelope.sender(), &stamp);
        head.add_origin(site.host(), envelope);
        head.add_id(protocol(envelope.utf8()), envelope.txn());
        head.add_date(&stamp);
        head
    }

    /// How many bytes the record has that begins with it, unless they are 2^64 or more, by the lengths of its message's
    /// text.
    pub fn record_size(&self, lengths: &Lengths) -> Option<u64>
        ensures { (site : Site) (envelope : Envelope) (message : List ℕ)
            → self.now ≡ head_of civil_at site envelope → lengths.now ≡ lengths_of message
            → (let size = length (record_text civil_at site envelope message) in SomeIff result (size < 2 ^ 64) size) }
    {
        (self.text().len() as u64).checked_add(lengths.of_text(self.renames_marks()))
    }

    pub(crate) fn text(&self) -> &[u8]
        ensures { result.now ≡ self.now.text }
    {
        &self.bytes[..self.size]
    }

    /// Whether the marks of the message's head are renamed in the record.
    pub(crate) fn renames_marks(&self) -> bool
        ensures { result ≡ self.now.renames_marks }
    {
        self.renames_marks
    }

    fn add(&mut self, text: &[u8])
        requires { length self.old.text + length text.now ≤ HEAD_LIMIT }
        ensures { HasAdded self.old self.new text.now }
    {
        let end = self.size + text.len();
        self.bytes[self.size..end].copy_from_slice(text);
        self.size = end;
    }

    fn add_from_line(&mut self, site: &Site, sender: &[u8], stamp: &Stamp)
        requires sender { length sender.now ≤ PATH_LIMIT }
        requires room { length self.old.text ≤ 0 }
        ensures text { HasAdded self.old self.new (from_line site.now sender.now stamp.now) }
        ensures size { length self.new.text ≤ 285 }
    {
        if site.renames_marks() {
            let mut plain = [0; PATH_LIMIT];
            let len = plain_address(sender, &mut plain);
            self.add_address_line(&plain[..len], stamp);
        } else {
            self.add_address_line(sender, stamp);
        }
    }

    fn add_address_line(&mut self, address: &[u8], stamp: &Stamp)
        requires address { length address.now ≤ PATH_LIMIT }
        requires room { length self.old.text ≤ 0 }
        ensures text { HasAdded self.old self.new (address_line address.now stamp.now) }
        ensures size { length self.new.text ≤ 285 }
    {
        self.add(b"From ");
        self.add(from_address(address));
        self.add(b" ");
        self.add(&stamp_ctime(stamp));
        self.add(b"\n");
    }

    fn add_origin(&mut self, host: &[u8], envelope: &Envelope)
        requires host { length host.now ≤ NAME_LIMIT }
        requires room { length self.old.text ≤ 285 }
        ensures text { HasAdded self.old self.new (origin host.now envelope.now) }
        ensures size { length self.new.text ≤ 1_100 }
    {
        self.add(b"Return-Path: <");
        self.add(envelope.sender());
        self.add(b">\nReceived: from ");
        self.add(envelope.client());
        self.add(b"\n\tby ");
        self.add(host);
    }

    fn add_id(&mut self, protocol: &[u8], txn: Txn)
        requires protocol { length protocol.now ≤ 8 }
        requires room { length self.old.text ≤ 1_100 }
        ensures text { HasAdded self.old self.new (id_text protocol.now txn) }
        ensures size { length self.new.text ≤ 1_200 }
    {
        let (mut lane, mut number) = (Buffer::new(), Buffer::new());
        self.add(b" with ");
        self.add(protocol);
        self.add(b" id ");
        self.add(lane.format(txn.lane).as_bytes());
        self.add(b"-");
        self.add(number.format(txn.number).as_bytes());
        self.add(b";\n");
    }

    fn add_date(&mut self, stamp: &Stamp)
        requires room { length self.old.text ≤ 1_200 }
        ensures text { HasAdded self.old self.new (date_line stamp.now) }
    {
        let mut date = [0; 31];
        let len = stamp_5322(stamp, &mut date);
        self.add(b"\t");
        self.add(&date[..len]);
        self.add(b"\n");
    }
}

// The null reverse path has no address.
fn from_address(sender: &[u8]) -> &[u8]
    requires { length sender.now ≤ PATH_LIMIT }
    ensures text { result.now ≡ from_address sender.now }
    ensures size { length result.now ≤ PATH_LIMIT }
{
    if sender.is_empty() {
        b"MAILER-DAEMON"
    } else {
        sender
    }
}

// Writes the sender as one word, and says where it ends.
fn plain_address(sender: &[u8], out: &mut [u8; PATH_LIMIT]) -> usize
    requires { length sender.now ≤ PATH_LIMIT }
    ensures text { take result out.new ≡ plain_address sender.now }
    ensures size { result ≤ PATH_LIMIT }
{
    for (i, byte) in sender.iter().enumerate() {
        out[i] = plain_byte(*byte);
    }
    sender.len()
}

// Readers split the From line at spaces, and take quotation marks and backslashes for more than themselves.
fn plain_byte(byte: u8) -> u8
    ensures { result ≡ if has_byte (codes " \"\\") byte then 45 else byte }
{
    if byte == b' ' || byte == b'"' || byte == b'\\' {
        b'-'
    } else {
        byte
    }
}

fn protocol(utf8: bool) -> &'static [u8]
    ensures name { result.now ≡ protocol utf8 }
    ensures size { length result.now ≤ 8 }
{
    if utf8 { b"UTF8LMTP" } else { b"LMTP" }
}
