//! The texts of the replies (RFC 5321, 4.2; the enhanced codes of RFC 2034).

ghost use Rattle.std.specs.Prelude.{◌≡◌, ℕ, ◌≤◌, List, ◌++◌, length, take, drop, IfSome, IfNone};
ghost use Rattle.mail_world.specs.Text.{crlf};
ghost use Rattle.mail_world.specs.Replies.{refusal_text, over_quota_text, outcome_text, reply_text};
ghost use Rattle.mail_writing.specs.Offer.{offers};

use crate::writing::put;
use itoa::Buffer;
use lmtp_text::Site;
use mail_world::limits::BOX_NAME_LIMIT;
use mail_world::{BadCommand, Outcome, Reply};

/// Bytes in which each reply has room.
pub const REPLY_LIMIT: usize = 1024;

/// What stands before a name, the name, what stands after it.
type Pieces<'a> = (&'static [u8], &'a [u8], &'static [u8]);

fn refusal(why: BadCommand) -> &'static [u8]
    ensures value { result.now ≡ refusal_text why }
    ensures size { length result.now ≤ 64 }
    ensures code { 3 ≤ length result.now }
{
    match why {
        BadCommand::Unknown => b"500 5.5.2 Unknown command\r\n",
        BadCommand::NotHere => b"500 Use LHLO\r\n",
        BadCommand::NotDone => b"502 5.5.1 Not offered\r\n",
        BadCommand::Arguments => b"501 5.5.4 Bad arguments\r\n",
        BadCommand::SenderSyntax => b"501 5.1.7 Bad sender\r\n",
        BadCommand::RecipientSyntax => b"501 5.1.3 Bad recipient\r\n",
        BadCommand::Parameter => b"555 5.5.4 Unknown parameter\r\n",
        BadCommand::TooLarge => b"552 5.3.4 Message too large\r\n",
        BadCommand::ClientName => b"501 Bad client name\r\n",
    }
}

fn over_quota(is_rejected: bool) -> &'static [u8]
    ensures value { result.now ≡ over_quota_text is_rejected }
    ensures size { length result.now ≤ 64 }
    ensures code { 3 ≤ length result.now }
{
    if is_rejected {
        b"552 5.2.2 Over quota for "
    } else {
        b"452 4.2.2 Over quota for "
    }
}

fn outcome_prefix(site: &Site, outcome: Outcome) -> &'static [u8]
    ensures value { (name : List ℕ) → result.now ++ name ++ crlf ≡ outcome_text site.now outcome name }
    ensures size { length result.now ≤ 64 }
    ensures code { 3 ≤ length result.now }
{
    match outcome {
        Outcome::Stored => b"250 2.0.0 Stored for ",
        Outcome::Failed => b"451 4.3.0 Not stored for ",
        Outcome::NoRoom => b"452 4.3.1 No room for ",
        Outcome::TooLarge => b"552 5.3.4 Too large for ",
        Outcome::OverQuota => over_quota(site.rejects_over_quota()),
        Outcome::Malformed => b"554 5.6.0 Malformed for ",
    }
}

/// The pieces of a reply that has no number in it, which is each but the offer.
#[tactic(auto, unfolding(mail_world::specs::Replies::reply_text))]
fn pieces<'a>(reply: Reply, site: &'a Site) -> Option<Pieces<'a>>
    ensures text { IfSome result (λ p. p.0.now ++ p.1.now ++ p.2.now ≡ reply_text site.now reply) }
    ensures prefix { IfSome result (λ p. length p.0.now ≤ 64) }
    ensures code { IfSome result (λ p. 3 ≤ length p.0.now) }
    ensures name { IfSome result (λ p. length p.1.now ≤ BOX_NAME_LIMIT) }
    ensures back { IfSome result (λ p. length p.2.now ≤ 128) }
    ensures offer { IfNone result (reply ≡ Reply.Offer) }
{
    match reply {
        Reply::Greeting => Some((b"220 ", site.host(), b" LMTP ready\r\n")),
        Reply::Offer => None,
        Reply::SenderOk => Some((b"250 2.1.0 Sender ok\r\n", b"", b"")),
        Reply::RecipientOk => Some((b"250 2.1.5 Recipient ok\r\n", b"", b"")),
        Reply::GoAhead => Some((b"354 End with a lone dot\r\n", b"", b"")),
        Reply::ResetOk => Some((b"250 2.0.0 Reset\r\n", b"", b"")),
        Reply::NoopOk => Some((b"250 2.0.0 Ok\r\n", b"", b"")),
        Reply::NotChecked => Some((b"252 2.0.0 Not checked\r\n", b"", b"")),
        Reply::HelpText => Some((
            b"214 2.0.0 LHLO MAIL RCPT DATA RSET NOOP QUIT VRFY HELP\r\n",
            b"",
            b"",
        )),
        Reply::Bye => Some((b"221 2.0.0 ", site.host(), b" closing\r\n")),
        Reply::Stopping => Some((b"421 4.3.2 ", site.host(), b" stopping\r\n")),
        Reply::NoSuchBox => Some((b"550 5.1.1 No such mailbox\r\n", b"", b"")),
        Reply::TooMany => Some((b"452 4.5.3 Too many recipients\r\n", b"", b"")),
        Reply::Busy => Some((b"450 4.2.1 Mailbox busy\r\n", b"", b"")),
        Reply::OutOfOrder => Some((b"503 5.5.1 Out of order\r\n", b"", b"")),
        Reply::LineTooLong => Some((b"500 5.5.2 Line too long\r\n", b"", b"")),
        Reply::Refused(why) => Some((refusal(why), b"", b"")),
        Reply::Result(outcome, i) => Some((
            outcome_prefix(site, outcome),
            site.box_name(i),
            b"\r\n",
        )),
    }
}

/// What the offer says after the host's name, before the limit.
fn offers(utf8: bool) -> &'static [u8]
    ensures text { result.now ≡ offers utf8 }
    ensures size { length result.now ≤ 128 }
{
    if utf8 {
        b"\r\n250-PIPELINING\r\n250-ENHANCEDSTATUSCODES\r\n250-8BITMIME\r\n250-SMTPUTF8\r\n250 SIZE "
    } else {
        b"\r\n250-PIPELINING\r\n250-ENHANCEDSTATUSCODES\r\n250-8BITMIME\r\n250 SIZE "
    }
}

/// Writes the answer to LHLO, which tells whether addresses may be in UTF-8, and the longest message that is taken.
fn write_offer(site: &Site, out: &mut [u8]) -> usize
    requires { REPLY_LIMIT ≤ length out.old }
    ensures text { take result out.new ≡ reply_text site.now Reply.Offer }
    ensures rest { drop result out.new ≡ drop result out.old }
    ensures size { result ≤ REPLY_LIMIT }
{
    let mut buffer = Buffer::new();
    let limit = buffer.format(site.message_limit()).as_bytes();
    let prefix = put(out, 0, b"250-");
    let named = put(out, prefix, site.host());
    let offered = put(out, named, offers(site.utf8()));
    let sized = put(out, offered, limit);
    put(out, sized, b"\r\n")
}

/// Writes the reply's lines, each with CRLF, at the head of `out`, and says how many bytes they take. A result that
/// names no mailbox has an empty name.
pub fn write_reply(reply: Reply, site: &Site, out: &mut [u8]) -> usize
    requires { REPLY_LIMIT ≤ length out.old }
    ensures text { take result out.new ≡ reply_text site.now reply }
    ensures rest { drop result out.new ≡ drop result out.old }
    ensures size { result ≤ REPLY_LIMIT }
{
    let Some((prefix, name, back)) = pieces(reply, site) else {
        return write_offer(site, out);
    };
    let named = put(out, 0, prefix);
    let after = put(out, named, name);
    put(out, after, back)
}

/// The code of a reply, its first three digits.
#[tactic(auto, using(crate::proofs::ReplyTexts::code_of_pieces, crate::proofs::ReplyTexts::code_of_offer))]
pub fn reply_code(reply: Reply, site: &Site) -> &'static [u8]
    ensures { result.now ≡ take 3 (reply_text site.now reply) }
{
    match pieces(reply, site) {
        Some((prefix, _, _)) => &prefix[..3],
        None => b"250",
    }
}
