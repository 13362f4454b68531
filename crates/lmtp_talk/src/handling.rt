//! What is done with the bytes that were read: lines go to the session, data goes to the delivery, and their replies to
//! the outbox and to the observer.

ghost use Rattle.std.specs.Prelude.{◌≡◌, ◌≤◌, ◌<◌, ℕ, List, [], ◌∷◌, ◌++◌, length, take, None, false};
ghost use Rattle.std.specs.Prelude.{IfSome, MatchOption};
ghost use Rattle.mail_world.specs.Session.{LongLine};
ghost use Rattle.mail_world.specs.Site.{extensions_of};
ghost use Rattle.mail_world.specs.Conversation.{line_input};
ghost use Rattle.lmtp_text.specs.Readings.{line_read, offered_for};
ghost use Rattle.lmtp_session.specs.Added.{added_box};
ghost use Rattle.lmtp_session.specs.Steps.{TakesLines};
ghost use Rattle.lmtp_talk.specs.BadCommands.{one_more, CountsLine};
ghost use Rattle.lmtp_talk.specs.Parties.{Parties, parties};
ghost use Rattle.lmtp_talk.specs.Steps.{talk, TakesInputs, TellsLine, TakesLine, EndsData, Advances};

use crate::bad_commands::bad_after;
use crate::delivery::Delivery;
use crate::dialogue::Dialogue;
use crate::observer::Observer;
use crate::peer::Peer;
use crate::telling::{Arrived, Asked};
use lmtp_session::{Act, Session};
use lmtp_text::Reading;
use lmtp_wire::{Dot, Got};
use mail_world::{State, Verdict};

/// Handles all that was read, up to QUIT.
pub fn handle<P: Peer, D: Delivery, O: Observer>(
    dialogue: &mut Dialogue,
    peer: &mut P,
    delivery: &mut D,
    observer: &mut O,
    piece: &[u8],
)
    requires { D.site delivery.old ≡ dialogue.old.session.site }
    ensures stands { Advances D.HasCome D.IsDrafting
        (talk dialogue.old (parties (P.state peer.old) (O.told observer.old)) delivery.old)
        (talk dialogue.new (parties (P.state peer.new) (O.told observer.new)) delivery.new) piece.now }
    ensures site { dialogue.new.session.site ≡ dialogue.old.session.site }
    ensures same { D.site delivery.new ≡ D.site delivery.old }
    ensures reads { (P.state peer.new).reads ≡ (P.state peer.old).reads }
{
    let mut at = 0;
    while at < piece.len() {
        let Some(used) = take_prefix(dialogue, peer, delivery, observer, &piece[at..]) else {
            return;
        };
        at += used;
    }
}

// Handles a prefix of the bytes, and says how many; `None` after QUIT.
fn take_prefix<P: Peer, D: Delivery, O: Observer>(
    dialogue: &mut Dialogue,
    peer: &mut P,
    delivery: &mut D,
    observer: &mut O,
    rest: &[u8],
) -> Option<usize>
    requires some { 0 < length rest.now }
    requires here { D.site delivery.old ≡ dialogue.old.session.site }
    ensures used { IfSome result (λ used. (0 < used) × (used ≤ length rest.now)) }
    ensures stands { MatchOption result
        (Advances D.HasCome D.IsDrafting
        (talk dialogue.old (parties (P.state peer.old) (O.told observer.old)) delivery.old)
        (talk dialogue.new (parties (P.state peer.new) (O.told observer.new)) delivery.new) rest.now)
        (λ used. Advances D.HasCome D.IsDrafting
        (talk dialogue.old (parties (P.state peer.old) (O.told observer.old)) delivery.old)
        (talk dialogue.new (parties (P.state peer.new) (O.told observer.new)) delivery.new) (take used rest.now)) }
    ensures site { dialogue.new.session.site ≡ dialogue.old.session.site }
    ensures same { D.site delivery.new ≡ D.site delivery.old }
    ensures reads { (P.state peer.new).reads ≡ (P.state peer.old).reads }
{
    match dialogue.session.state() {
        State::Content => Some(take_data(dialogue, peer, delivery, observer, rest)),
        State::Fresh | State::Greeted | State::Sender | State::Recipients => Some(take_line(
            dialogue, peer, delivery, observer, rest,
        )),
        State::Waiting | State::Ended => None,
    }
}

// Takes bytes of a line, and handles it if they end it.
fn take_line<P: Peer, D: Delivery, O: Observer>(
    dialogue: &mut Dialogue,
    peer: &mut P,
    delivery: &mut D,
    observer: &mut O,
    rest: &[u8],
) -> usize
    requires state { TakesLines dialogue.old.session.session.state }
    requires some { 0 < length rest.now }
    requires here { D.site delivery.old ≡ dialogue.old.session.site }
    ensures used { (0 < result) × (result ≤ length rest.now) }
    ensures stands { Advances D.HasCome D.IsDrafting
        (talk dialogue.old (parties (P.state peer.old) (O.told observer.old)) delivery.old)
        (talk dialogue.new (parties (P.state peer.new) (O.told observer.new)) delivery.new) (take result rest.now) }
    ensures site { dialogue.new.session.site ≡ dialogue.old.session.site }
    ensures same { D.site delivery.new ≡ D.site delivery.old }
    ensures reads { (P.state peer.new).reads ≡ (P.state peer.old).reads }
{
    let took = dialogue.wire.command(rest);
    match took.got {
        Got::More => {}
        Got::Line => {
            handle_line(dialogue, peer, delivery, observer);
        }
        Got::TooLong => refuse_line(dialogue, peer, observer),
    }
    took.used
}

// Handles the line that has ended, and says whether its mailbox was busy.
fn handle_line<P: Peer, D: Delivery, O: Observer>(
    dialogue: &mut Dialogue,
    peer: &mut P,
    delivery: &mut D,
    observer: &mut O,
) -> bool
    requires { TakesLines dialogue.old.session.session.state }
    ensures busy { dialogue.old.session.site.tells_busy ≡ false → result ≡ false }
    ensures takes { TakesLine D.HasCome D.IsDrafting (line_input dialogue.old.wire.line result)
        (talk dialogue.old (parties (P.state peer.old) (O.told observer.old)) delivery.old)
        (talk dialogue.new (parties (P.state peer.new) (O.told observer.new)) delivery.new) }
    ensures same { D.site delivery.new ≡ D.site delivery.old }
    ensures reads { (P.state peer.new).reads ≡ (P.state peer.old).reads }
    ensures counts { CountsLine (line_input dialogue.old.wire.line result) dialogue.old dialogue.new }
{
    let said = dialogue.session.read(dialogue.wire.line());
    let is_busy = is_busy(&dialogue.session, delivery, &said);
    let act = if is_busy {
        dialogue.session.busy_line(said)
    } else {
        dialogue.session.line(said)
    };
    let asked = Asked::Line(said);
    dialogue
        .outbox
        .answer(peer, observer, &dialogue.session, asked, act);
    dialogue.bad_commands = bad_after(act, dialogue.bad_commands);
    if act == Act::ReadData {
        dialogue.dot = Dot::new();
        delivery.begin();
    }
    if dialogue.session.state() == State::Greeted {
        delivery.rests();
    }
    is_busy
}

// Whether the line would add a recipient whose mailbox is busy, where the site tells of that.
fn is_busy<D: Delivery>(session: &Session, delivery: &D, said: &Reading<'_>) -> bool
    requires offered { offered_for said.now ≡ extensions_of session.now.site }
    ensures told { session.now.site.tells_busy ≡ false → result ≡ false }
    ensures added { added_box session.now.site session.now.session (line_read said.now) ≡ None → result ≡ false }
{
    if !session.site().tells_busy() {
        return false;
    }
    match session.added_box(said) {
        Some(mailbox) => delivery.is_busy(mailbox),
        None => false,
    }
}

// Answers a line that was too long.
fn refuse_line<P: Peer, O: Observer>(dialogue: &mut Dialogue, peer: &mut P, observer: &mut O)
    requires { TakesLines dialogue.old.session.session.state }
    ensures takes { TakesInputs (LongLine ∷ []) dialogue.old dialogue.new (P.state peer.old) (P.state peer.new) }
    ensures told { TellsLine LongLine dialogue.old (O.told observer.old) (O.told observer.new) }
    ensures reads { (P.state peer.new).reads ≡ (P.state peer.old).reads }
    ensures counts { dialogue.new.bad_commands ≡ one_more dialogue.old.bad_commands }
{
    let act = dialogue.session.too_long();
    let asked = Asked::Line(dialogue.session.read(b""));
    dialogue
        .outbox
        .answer(peer, observer, &dialogue.session, asked, act);
    dialogue.bad_commands = dialogue.bad_commands.saturating_add(1);
}

// Takes bytes of data, and handles the message if they end it.
fn take_data<P: Peer, D: Delivery, O: Observer>(
    dialogue: &mut Dialogue,
    peer: &mut P,
    delivery: &mut D,
    observer: &mut O,
    rest: &[u8],
) -> usize
    requires state { dialogue.old.session.session.state ≡ State.Content }
    requires some { 0 < length rest.now }
    requires here { D.site delivery.old ≡ dialogue.old.session.site }
    ensures used { (0 < result) × (result ≤ length rest.now) }
    ensures stands { Advances D.HasCome D.IsDrafting
        (talk dialogue.old (parties (P.state peer.old) (O.told observer.old)) delivery.old)
        (talk dialogue.new (parties (P.state peer.new) (O.told observer.new)) delivery.new) (take result rest.now) }
    ensures site { dialogue.new.session.site ≡ dialogue.old.session.site }
    ensures same { D.site delivery.new ≡ D.site delivery.old }
    ensures reads { (P.state peer.new).reads ≡ (P.state peer.old).reads }
{
    let fed = delivery.take(&mut dialogue.dot, rest);
    if fed.ended {
        handle_message(dialogue, peer, delivery, observer);
    }
    fed.used
}

// The message whose data has ended goes to its recipients, or is refused.
fn handle_message<P: Peer, D: Delivery, O: Observer>(
    dialogue: &mut Dialogue,
    peer: &mut P,
    delivery: &mut D,
    observer: &mut O,
)
    requires state { dialogue.old.session.session.state ≡ State.Content }
    requires here { D.site delivery.old ≡ dialogue.old.session.site }
    ensures ends { EndsData D.HasCome D.IsDrafting
        (talk dialogue.old (parties (P.state peer.old) (O.told observer.old)) delivery.old)
        (talk dialogue.new (parties (P.state peer.new) (O.told observer.new)) delivery.new) }
    ensures same { D.site delivery.new ≡ D.site delivery.old }
    ensures reads { (P.state peer.new).reads ≡ (P.state peer.old).reads }
    ensures anew { dialogue.new.bad_commands ≡ 0 }
{
    dialogue.bad_commands = 0;
    let number = delivery.number();
    let size = delivery.size();
    let message_id = delivery.message_id();
    let asked = Asked::Message(Arrived {
        number,
        size,
        message_id,
    });
    match delivery.end(&dialogue.session) {
        Ok(()) => {
            dialogue.session.data_done(Verdict::Whole);
            let answered = dialogue.session.outcomes(delivery.outcomes());
            dialogue
                .outbox
                .answer(peer, observer, &dialogue.session, asked, answered);
        }
        Err(verdict) => {
            let refused = dialogue.session.data_done(verdict);
            dialogue
                .outbox
                .answer(peer, observer, &dialogue.session, asked, refused);
        }
    }
}
