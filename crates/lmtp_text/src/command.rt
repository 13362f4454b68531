//! Command lines: what stands before CRLF, as one of the commands or a refusal (RFC 5321, 4.1.1; RFC 2033, 4.1).

ghost use Rattle.std.specs.Prelude.{◌≡◌, codes, option_map, if◌then◌else◌, not, ◌&&◌};
ghost use Rattle.std.specs.List.{list_all};
ghost use Rattle.mail_world.specs.Commands as m;
ghost use Rattle.mail_world.specs.Grammar.{is_visible};
ghost use Rattle.mail_world.specs.Text.{has_byte};
ghost use Rattle.lmtp_text.specs.Seen.{seen_answer, seen_command, seen_target};

use crate::alphabet::is_visible_byte;
use crate::cut::{begins_with_byte, split_at_byte, without_blanks_after, without_spaces_before};
use crate::names::is_word;
use crate::parameters::{has_parameters, read_mail_parameters};
use crate::path::{read_forward_path, read_reverse_path};
use mail_world::limits::{MESSAGE_LIMIT, NAME_LIMIT};
use mail_world::{BadCommand, Extensions};

/// A recipient as the line spells it: the local part without its quotes, and the domain or the address in brackets,
/// where one stands.
#[derive(Clone, Copy, Debug, PartialEq, Eq)]
pub struct Target<'a> {
    pub local: &'a [u8],
    pub quoted: bool,
    pub domain: Option<&'a [u8]>,
}

/// A command, with the parts of the line that matter later.
#[derive(Clone, Copy, Debug, PartialEq, Eq)]
pub enum Command<'a> {
    /// The client's name.
    Lhlo(&'a [u8]),
    /// The sender's mailbox, without brackets and route, which is empty for `<>`; and whether the parameter SMTPUTF8
    /// stands there (RFC 6531).
    Mail { sender: &'a [u8], utf8: bool },
    Rcpt(Target<'a>),
    StartData,
    Rset,
    Noop,
    Quit,
    Vrfy,
    Help,
}

/// The command in a line without its CRLF, or why it is refused. Of several faults the first in this order decides:
/// the verb, its label, the path, an unknown parameter, a wrong or doubled one, a size above the limit.
/// Spaces and tabs at the end don't count. It takes no memory: names and paths are parts of the line.
pub fn read_command<'a>(line: &'a [u8]) -> Result<Command<'a>, BadCommand>
    ensures { seen_answer result ≡ m.command line.now }
{
    let usual = Extensions {
        message_limit: MESSAGE_LIMIT,
        utf8: false,
    };
    read_command_at(line, usual)
}

/// The same at a site that offers these extensions.
pub fn read_command_at<'a>(line: &'a [u8], offered: Extensions) -> Result<Command<'a>, BadCommand>
    ensures { seen_answer result ≡ m.command_at offered line.now }
{
    let (verb, rest) = split_at_byte(without_blanks_after(line), b' ');
    by_verb(verb, without_spaces_before(rest), offered)
}

/// The command of this verb, with what follows it.
fn by_verb<'a>(verb: &[u8], rest: &'a [u8], offered: Extensions) -> Result<Command<'a>, BadCommand>
    ensures { seen_answer result ≡ m.by_verb offered verb.now rest.now }
{
    if is_word(verb, b"HELO") || is_word(verb, b"EHLO") {
        Err(BadCommand::NotHere)
    } else if is_word(verb, b"EXPN") {
        Err(BadCommand::NotDone)
    } else if is_word(verb, b"NOOP") {
        Ok(Command::Noop)
    } else if is_word(verb, b"VRFY") {
        Ok(Command::Vrfy)
    } else if is_word(verb, b"HELP") {
        Ok(Command::Help)
    } else if is_word(verb, b"DATA") {
        alone(Command::StartData, rest)
    } else if is_word(verb, b"RSET") {
        alone(Command::Rset, rest)
    } else if is_word(verb, b"QUIT") {
        alone(Command::Quit, rest)
    } else if is_word(verb, b"LHLO") {
        read_lhlo(rest)
    } else if is_word(verb, b"MAIL") {
        read_mail(rest, offered)
    } else if is_word(verb, b"RCPT") {
        read_rcpt(rest, offered)
    } else {
        Err(BadCommand::Unknown)
    }
}

/// A command that stands alone.
fn alone<'a>(command: Command<'a>, rest: &[u8]) -> Result<Command<'a>, BadCommand>
    ensures { seen_answer result ≡ m.alone (seen_command command.entry) rest.now }
{
    if rest.is_empty() {
        Ok(command)
    } else {
        Err(BadCommand::Arguments)
    }
}

/// LHLO with the client's name.
fn read_lhlo(rest: &[u8]) -> Result<Command, BadCommand>
    ensures { seen_answer result
        ≡ (if m.is_client_name rest.now then Ok (m.Lhlo rest.now) else Err BadCommand.ClientName) }
{
    if is_client_name(rest) {
        Ok(Command::Lhlo(rest))
    } else {
        Err(BadCommand::ClientName)
    }
}

/// Whether the text can name a client.
fn is_client_name(text: &[u8]) -> bool
    ensures { result ≡ m.is_client_name text.now }
{
    (1..=NAME_LIMIT).contains(&text.len()) && all_of_name(text)
}

/// Whether each byte may stand in a client's name: visible, and none that has a meaning in a Received line.
fn all_of_name(text: &[u8]) -> bool
    ensures { result
        ≡ list_all (λ b. is_visible b && not (has_byte (codes "()<>;,\"\\") b)) text.now }
{
    text.iter()
        .all(|b| is_visible_byte(*b) && !b"()<>;,\"\\".contains(b))
}

/// What stands after the label and further spaces, where the text begins with the label in any case of letters.
fn after_label<'a>(label: &[u8], text: &'a [u8]) -> Option<&'a [u8]>
    ensures { option_map (λ rest. rest.now) result ≡ m.after_label label.now text.now }
{
    let n = label.len().min(text.len());
    let (prefix, rest) = text.split_at(n);
    if is_word(prefix, label) {
        Some(without_spaces_before(rest))
    } else {
        None
    }
}

/// Whether what follows a path is nothing or parameters.
fn ends_path(rest: &[u8]) -> bool
    ensures { result ≡ m.ends_path rest.now }
{
    rest.is_empty() || begins_with_byte(rest, b' ')
}

/// MAIL with the sender's path and parameters.
fn read_mail(rest: &[u8], offered: Extensions) -> Result<Command, BadCommand>
    ensures { seen_answer result ≡ m.mail offered (m.after_label (codes "FROM:") rest.now) }
{
    let text = after_label(b"FROM:", rest).ok_or(BadCommand::Arguments)?;
    let path = read_reverse_path(offered.utf8, text).ok_or(BadCommand::SenderSyntax)?;
    if !ends_path(path.rest) {
        return Err(BadCommand::SenderSyntax);
    }
    let utf8 = read_mail_parameters(path.rest, offered)?;
    Ok(Command::Mail {
        sender: path.value,
        utf8,
    })
}

/// RCPT with the recipient's path, which may have no parameters.
#[tactic(auto, using(crate::proofs::ParameterLists::rcpt_refused))]
fn read_rcpt(rest: &[u8], offered: Extensions) -> Result<Command, BadCommand>
    ensures { seen_answer result ≡ m.rcpt offered (m.after_label (codes "TO:") rest.now) }
{
    let text = after_label(b"TO:", rest).ok_or(BadCommand::Arguments)?;
    let path = read_forward_path(offered.utf8, text).ok_or(BadCommand::RecipientSyntax)?;
    if !ends_path(path.rest) {
        return Err(BadCommand::RecipientSyntax);
    }
    if has_parameters(path.rest) {
        return Err(BadCommand::Parameter);
    }
    Ok(Command::Rcpt(path.value.target))
}
