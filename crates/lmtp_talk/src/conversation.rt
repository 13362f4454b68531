//! One conversation, from its greeting to its end.

ghost use Rattle.std.specs.Prelude.{◌≡◌, ◌≢◌, ℕ, [], ◌∷◌, IfSome, IfOk, OnErr, MatchOption};
ghost use Rattle.mail_world.specs.Session.{Stop};
ghost use Rattle.mail_world.specs.Lists.{is_content};
ghost use Rattle.lmtp_session.specs.Steps.{MayStop};
ghost use Rattle.lmtp_talk.specs.Steps.{talk, TakesInputs};
ghost use Rattle.lmtp_talk.specs.Rounds.{Greets, Leaves, TakesRound, EndsRound, HandlesPiece, end_after, stopped_or};
ghost use Rattle.lmtp_talk.specs.ReadBuffer.{piece_of};
ghost use Rattle.lmtp_talk.specs.Peer.{WasRead, HasBrought, PeerFailed};
ghost use Rattle.lmtp_talk.specs.Parties.{parties};
ghost use Rattle.lmtp_talk.specs.Served.{terms, HasRead, IsServed};

use crate::delivery::Delivery;
use crate::dialogue::Dialogue;
use crate::ending::EndCause;
use crate::handling::handle;
use crate::observer::Observer;
use crate::pause::Pause;
use crate::peer::{Came, Peer, PeerFault};
use crate::read_buffer::ReadBuffer;
use mail_world::State;

/// Serves one conversation. All that was read is handled, and its replies are written, before the next read; nothing is
/// read after QUIT, and that many reads are made at most. Where a write fails the conversation ends once the bytes that
/// were read are handled. What is read is handled where the buffer lends it. The observer isn't told of the end.
pub fn serve<P: Peer, D: Delivery, O: Observer>(
    dialogue: &mut Dialogue,
    buffer: &mut ReadBuffer,
    peer: &mut P,
    delivery: &mut D,
    observer: &mut O,
    reads: u32,
) -> EndCause
    requires { D.site delivery.old ≡ dialogue.old.session.site }
    ensures serves { IsServed (terms dialogue.old.session.site reads) (parties (P.state peer.old) (O.told observer.old))
        (parties (P.state peer.new) (O.told observer.new))
        (D.HasCome delivery.old) (D.HasCome delivery.new) result }
    ensures reads { HasRead reads (P.state peer.old) (P.state peer.new) result }
    ensures site { dialogue.new.session.site ≡ dialogue.old.session.site }
    ensures same { D.site delivery.new ≡ D.site delivery.old }
{
    greet(dialogue, peer);
    let end = take_rounds(dialogue, buffer, peer, delivery, observer, reads);
    delivery.rests();
    end
}

// The first reply (RFC 5321, 4.3.1).
fn greet<P: Peer>(dialogue: &mut Dialogue, peer: &mut P)
    ensures greets { Greets dialogue.old dialogue.new (P.state peer.old) (P.state peer.new) }
    ensures reads { (P.state peer.new).reads ≡ (P.state peer.old).reads }
    ensures none { dialogue.new.outbox.pending ≡ [] }
    ensures anew { dialogue.new.bad_commands ≡ 0 }
{
    dialogue.bad_commands = 0;
    dialogue.wire.clear();
    dialogue.outbox.clear();
    let greeting = dialogue.session.greeting();
    dialogue.outbox.say(peer, dialogue.session.site(), greeting);
    dialogue.outbox.flush(peer);
}

// Takes rounds until the conversation ends.
fn take_rounds<P: Peer, D: Delivery, O: Observer>(
    dialogue: &mut Dialogue,
    buffer: &mut ReadBuffer,
    peer: &mut P,
    delivery: &mut D,
    observer: &mut O,
    reads: u32,
) -> EndCause
    requires may { MayStop dialogue.old.session.session.state }
    requires none { dialogue.old.outbox.pending ≡ [] }
    requires here { D.site delivery.old ≡ dialogue.old.session.site }
    ensures ends { EndsRound D.HasCome D.IsDrafting reads
        (talk dialogue.old (parties (P.state peer.old) (O.told observer.old)) delivery.old)
        (talk dialogue.new (parties (P.state peer.new) (O.told observer.new)) delivery.new) result }
    ensures reads { HasRead reads (P.state peer.old) (P.state peer.new) result }
    ensures site { dialogue.new.session.site ≡ dialogue.old.session.site }
    ensures same { D.site delivery.new ≡ D.site delivery.old }
{
    for _made in 0..reads {
        if let Some(end) = take_round(dialogue, buffer, peer, delivery, observer) {
            return end;
        }
    }
    leave(dialogue, delivery);
    if dialogue.outbox.is_broken() {
        EndCause::WriteFault
    } else {
        EndCause::ReadBound
    }
}

// One read and all that it brings; the cause where the conversation ends with it.
fn take_round<P: Peer, D: Delivery, O: Observer>(
    dialogue: &mut Dialogue,
    buffer: &mut ReadBuffer,
    peer: &mut P,
    delivery: &mut D,
    observer: &mut O,
) -> Option<EndCause>
    requires may { MayStop dialogue.old.session.session.state }
    requires none { dialogue.old.outbox.pending ≡ [] }
    requires here { D.site delivery.old ≡ dialogue.old.session.site }
    ensures round { MatchOption result
        (TakesRound D.HasCome D.IsDrafting
        (talk dialogue.old (parties (P.state peer.old) (O.told observer.old)) delivery.old)
        (talk dialogue.new (parties (P.state peer.new) (O.told observer.new)) delivery.new))
        (λ end. (reads : ℕ) → EndsRound D.HasCome D.IsDrafting reads
        (talk dialogue.old (parties (P.state peer.old) (O.told observer.old)) delivery.old)
        (talk dialogue.new (parties (P.state peer.new) (O.told observer.new)) delivery.new) end) }
    ensures reads { MatchOption result (WasRead 1 (P.state peer.old) (P.state peer.new))
        (λ end. (end ≢ EndCause.ReadBound) × HasRead 1 (P.state peer.old) (P.state peer.new) end) }
    ensures may { MatchOption result (MayStop dialogue.new.session.session.state) (λ _. Unit {0}) }
    ensures none { MatchOption result (dialogue.new.outbox.pending ≡ []) (λ _. Unit {0}) }
    ensures site { dialogue.new.session.site ≡ dialogue.old.session.site }
    ensures same { D.site delivery.new ≡ D.site delivery.old }
{
    if dialogue.outbox.is_broken() {
        leave(dialogue, delivery);
        return Some(EndCause::WriteFault);
    }
    let pause = dialogue.pause();
    match hear(buffer, peer, observer, pause, dialogue.bad_commands) {
        Ok(Came::Bytes(_)) => {
            take_piece(dialogue, peer, delivery, observer, buffer.piece());
            end_or_go_on(dialogue)
        }
        Ok(Came::End) => {
            leave(dialogue, delivery);
            Some(EndCause::EndOfInput)
        }
        Ok(Came::Stop) => {
            leave(dialogue, delivery);
            stop(dialogue, peer);
            Some(stopped_or_fault(dialogue.outbox.is_broken()))
        }
        Err(_) => {
            leave(dialogue, delivery);
            Some(EndCause::ReadFault)
        }
    }
}

// Reads once, when all replies are written.
fn hear<P: Peer, O: Observer>(
    buffer: &mut ReadBuffer,
    peer: &mut P,
    observer: &mut O,
    pause: Pause,
    bad_commands: u32,
) -> Result<Came, PeerFault>
    ensures reads { WasRead 1 (P.state peer.old) (P.state peer.new) }
    ensures ok { IfOk result (λ came. HasBrought (P.state peer.old) (P.state peer.new) (piece_of buffer.new) came) }
    ensures err { OnErr result (PeerFailed (P.state peer.old) (P.state peer.new)) }
    ensures untold { O.told observer.new ≡ O.told observer.old }
{
    observer.written();
    let read = peer.read(buffer, pause, bad_commands);
    observer.came();
    read
}

// Handles the bytes, and writes the replies to them.
fn take_piece<P: Peer, D: Delivery, O: Observer>(
    dialogue: &mut Dialogue,
    peer: &mut P,
    delivery: &mut D,
    observer: &mut O,
    piece: &[u8],
)
    requires { D.site delivery.old ≡ dialogue.old.session.site }
    ensures handles { HandlesPiece D.HasCome D.IsDrafting
        (talk dialogue.old (parties (P.state peer.old) (O.told observer.old)) delivery.old)
        (talk dialogue.new (parties (P.state peer.new) (O.told observer.new)) delivery.new) piece.now }
    ensures reads { (P.state peer.new).reads ≡ (P.state peer.old).reads }
    ensures none { dialogue.new.outbox.pending ≡ [] }
    ensures site { dialogue.new.session.site ≡ dialogue.old.session.site }
    ensures same { D.site delivery.new ≡ D.site delivery.old }
{
    handle(dialogue, peer, delivery, observer, piece);
    dialogue.outbox.flush(peer);
}

// After QUIT the conversation has ended. A write that failed before it is noticed now, and else in the next round.
fn end_or_go_on(dialogue: &Dialogue) -> Option<EndCause>
    ensures { result ≡ end_after dialogue.now.session.session.state dialogue.now.outbox.broken }
{
    match dialogue.session.state() {
        State::Ended | State::Waiting => Some(if dialogue.outbox.is_broken() {
            EndCause::WriteFault
        } else {
            EndCause::Quit
        }),
        _ => None,
    }
}

fn stopped_or_fault(broken: bool) -> EndCause
    ensures { result ≡ stopped_or broken }
{
    if broken {
        EndCause::WriteFault
    } else {
        EndCause::Stopped
    }
}

// The draft of a conversation that ends inside data is dropped.
fn leave<D: Delivery>(dialogue: &Dialogue, delivery: &mut D)
    ensures leaves { Leaves (is_content dialogue.now.session.session.state)
        (D.HasCome delivery.old) (D.IsDrafting delivery.old) (D.HasCome delivery.new) }
    ensures same { D.site delivery.new ≡ D.site delivery.old }
{
    match dialogue.session.state() {
        State::Content => delivery.cancel(),
        _ => {}
    }
}

// The last reply where the server stops (RFC 5321, 3.8).
fn stop<P: Peer>(dialogue: &mut Dialogue, peer: &mut P)
    requires { MayStop dialogue.old.session.session.state }
    ensures takes { TakesInputs (Stop ∷ []) dialogue.old dialogue.new (P.state peer.old) (P.state peer.new) }
    ensures reads { (P.state peer.new).reads ≡ (P.state peer.old).reads }
    ensures none { dialogue.new.outbox.pending ≡ [] }
{
    let act = dialogue.session.stop();
    dialogue.outbox.say_all(peer, &dialogue.session, act);
    dialogue.outbox.flush(peer);
}
