//! The address that a command line names, and how a line of the log shows it and other texts that a client chose.

ghost use Rattle.std.specs.Prelude.{◌≡◌, ◌-◌, ◌^◌, take, option_map};
ghost use Rattle.mail_world.specs.Grammar.{local_text, mailbox_text};
ghost use Rattle.mail_world.specs.declared.limits.TheConstants.{PATH_LIMIT};
ghost use Rattle.lmtp_text.specs.Readings.{line_read};
ghost use Rattle.lmtp_text.specs.Seen.{seen_target};
ghost use Rattle.mail_head.specs.Texts.{text_of};
ghost use Rattle.lmtpd_log.specs.Letters.{address_in, named_by, target_in};
ghost use Rattle.lmtpd_log.specs.Shown.{escaped, shown_address};

use lmtp_text::{Command, Extensions, Reading, Target};
use mail_head::Text;
use mail_world::limits::PATH_LIMIT;
use percent_encoding::{AsciiSet, CONTROLS, ascii_set, percent_encode};
use std::fmt;
use std::fmt::{Display, Formatter};

/// The address of a sender or a recipient.
pub(crate) type Address = Text<PATH_LIMIT>;

/// What has an escape in an address, an id and a client's name, beside what isn't ASCII: with the space it is one word,
/// and with the percent sign the word says which text it was.
pub const ESCAPED: AsciiSet = ascii_set!(CONTROLS.add(b' ').add(b'%'));

/// The address that a command line names, where it is one of MAIL or RCPT that can be read. `utf8`: it may be in UTF-8.
pub(crate) fn address_in(said: Reading<'_>, utf8: bool) -> Option<Address>
    ensures { option_map text_of result ≡ address_in utf8 (line_read said.entry) }
{
    match said.command_at(offered(utf8)) {
        Ok(Command::Mail { sender, .. }) => Some(sender_address(sender)),
        Ok(Command::Rcpt(target)) => Some(recipient_address(target)),
        _ => None,
    }
}

// A size that MAIL says is not looked at.
fn offered(utf8: bool) -> Extensions
    ensures { result ≡ record { message_limit = 2 ^ 32 - 1; utf8 = utf8 } }
{
    Extensions {
        message_limit: u32::MAX,
        utf8,
    }
}

/// The target that a command line names, where it is a RCPT that can be read.
pub(crate) fn target_in<'a>(said: Reading<'a>, utf8: bool) -> Option<Target<'a>>
    ensures { option_map seen_target result ≡ target_in utf8 (line_read said.entry) }
{
    match said.command_at(offered(utf8)) {
        Ok(Command::Rcpt(target)) => Some(target),
        _ => None,
    }
}

/// The same of a line that was accepted, and the null reverse path where it names none.
pub(crate) fn named_by(said: Reading<'_>) -> Address
    ensures { text_of result ≡ named_by (line_read said.entry) }
{
    address_in(said, true).unwrap_or(Text::empty())
}

fn sender_address(sender: &[u8]) -> Address
    ensures { text_of result ≡ take PATH_LIMIT sender.now }
{
    Text::of(sender)
}

// As the line spells it.
fn recipient_address(target: Target<'_>) -> Address
    ensures { text_of result ≡ take PATH_LIMIT (mailbox_text (seen_target target.entry)) }
{
    let mut address = local_address(target.local, target.quoted);
    match target.domain {
        Some(domain) => {
            address.add(b"@");
            address.add(domain);
            address
        }
        None => address,
    }
}

// The local part, in its quotes where it has them.
fn local_address(local: &[u8], quoted: bool) -> Address
    ensures { text_of result ≡ take PATH_LIMIT (local_text quoted local.now) }
{
    if quoted {
        let mut address = Text::of(b"\"");
        address.add(local);
        address.add(b"\"");
        address
    } else {
        Text::of(local)
    }
}

/// A message's id or a client's name as a line shows it.
#[derive(Clone, Copy, Drop)]
pub(crate) struct Escaped<'a>(pub &'a [u8]);

impl Display for Escaped<'_> {
    ghost use Rattle.std.specs.Prelude.{Some};

    ghost output = { λ shown. Some (escaped shown.0.now) };

    fn fmt<W: fmt::Write>(&self, f: &mut Formatter<W>) -> fmt::Result {
        f.write(&percent_encode(self.0, ESCAPED))
    }
}

/// An address as a line shows it.
#[derive(Clone, Copy, Drop)]
pub(crate) struct Shown<'a>(pub &'a [u8]);

impl Display for Shown<'_> {
    ghost use Rattle.std.specs.Prelude.{Some};

    ghost output = { λ shown. Some (shown_address shown.0.now) };

    fn fmt<W: fmt::Write>(&self, f: &mut Formatter<W>) -> fmt::Result {
        f.write_str("<")?;
        f.write(&percent_encode(self.0, ESCAPED))?;
        f.write_str(">")
    }
}
