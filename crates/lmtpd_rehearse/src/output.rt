//! The mailboxes of a rehearsal, to its writer.

ghost use Rattle.std.specs.Prelude.{◌≡◌, ◌++◌, length, OnOk, OnErr};
ghost use Rattle.std.specs.Io.KnownBytes.{Appends};
ghost use Rattle.lmtpd_output.specs.Output.{IsCutOff};
ghost use Rattle.lmtpd_rehearse.specs.Mailboxes.{bytes_of_all, mailbox_line, texts_of_mailboxes};

use super::parts::Mailbox;
use itoa::Buffer;
use lmtp_text::Site;
use lmtpd_output::{WriteFault, write_each};
use std::io::Write;

// Writes the line of a mailbox, and what it holds.
fn write_mailbox<W: Write>(writer: &mut W, name: &[u8], bytes: &[u8]) -> Result<(), WriteFault>
    ensures ok { OnOk result (Appends (W.contents writer.old) (W.contents writer.new)
        (mailbox_line name.now (length bytes.now) ++ bytes.now)) }
    ensures err { OnErr result (IsCutOff (W.contents writer.old) (W.contents writer.new)
        (mailbox_line name.now (length bytes.now) ++ bytes.now)) }
{
    let mut digits = Buffer::new();
    let size = digits.format(bytes.len());
    write_each(
        writer,
        &[b"mailbox ", name, b" ", size.as_bytes(), b"\n", bytes],
    )
}

/// Writes the mailboxes of the site, in their order, each after a line of its name and size.
pub fn write_mailboxes<W: Write>(
    writer: &mut W,
    site: &Site,
    mailboxes: &[Mailbox],
) -> Result<(), WriteFault>
    requires { length mailboxes.now ≡ length site.now.boxes }
    ensures ok { OnOk result (Appends (W.contents writer.old) (W.contents writer.new)
        (texts_of_mailboxes site.now.boxes (bytes_of_all mailboxes.now))) }
    ensures err { OnErr result (IsCutOff (W.contents writer.old) (W.contents writer.new)
        (texts_of_mailboxes site.now.boxes (bytes_of_all mailboxes.now))) }
{
    for number in 0..site.box_count() {
        let mailbox = &mailboxes[number as usize];
        write_mailbox(writer, site.box_name(number), mailbox.inner.bytes())?;
    }
    Ok(())
}
