//! What is done with the messages of a conversation.

ghost use Rattle.std.specs.Prelude.{◌≡◌, ◌≢◌, ◌≤◌, ◌<◌, ℕ, ◌+◌, List, [], length, OnOk, IfErr, option_map};
ghost use Rattle.mail_world.specs.declared.Outcome.{Outcome as Told};
ghost use Rattle.mail_world.specs.Lists.{Transaction};
ghost use Rattle.mail_world.specs.Counts.{counted};
ghost use Rattle.mail_world.specs.Site.{Site};
ghost use Rattle.mail_head.specs.MessageIds.{message_id_of};
ghost use Rattle.mail_head.specs.Texts.{text_of};
ghost use Rattle.lmtp_talk.specs.Delivery.{ended_so, Takes, EndsDraft};

use lmtp_session::Session;
use lmtp_wire::{Dot, Fed};
use mail_head::MessageId;
use mail_world::{Outcome, State, Verdict};

/// Takes the messages of conversations, one after the other, and says what became of each.
pub trait Delivery {
    // the site whose mailboxes it delivers to
    ghost site: { Self → Site };

    // that many DATA commands were accepted, and this became of the data that ended
    ghost HasCome: { Self → ℕ → List Transaction → Type 0 };

    // the same, with a draft of these message bytes in hand
    ghost IsDrafting: { Self → ℕ → List Transaction → List ℕ → Type 0 };

    // what became of the copies of the last message that was delivered
    ghost outcomes: { Self → List Told };

    // the moment of the last data that ended, in seconds since 1970
    ghost moment: { Self → ℕ };

    /// A DATA command was accepted.
    fn begin(&mut self)
        ensures same { site self.new ≡ site self.old }
        ensures begins { (n : ℕ) (ts : List Transaction) → HasCome self.old n ts
            → IsDrafting self.new (n + 1) ts [] };

    /// Bytes of the data have come. The dot is fed with some of them, and what it makes comes to the message.
    fn take(&mut self, dot: &mut Dot, bytes: &[u8]) -> Fed
        requires { 0 < length bytes.now }
        ensures same { site self.new ≡ site self.old }
        ensures used { (0 < result.used) × (result.used ≤ length bytes.now) }
        ensures takes { Takes (IsDrafting self.old) (IsDrafting self.new) dot.old dot.new bytes.now result };

    /// How many DATA commands were accepted, that of the message in hand among them; it stays at its largest value.
    fn number(&self) -> u64
        ensures { (n : ℕ) (ts : List Transaction) (message : List ℕ) → IsDrafting self.now n ts message
            → result ≡ counted n };

    /// How many bytes of the message have come; it stays at its largest value.
    fn size(&self) -> u64
        ensures { (n : ℕ) (ts : List Transaction) (message : List ℕ) → IsDrafting self.now n ts message
            → result ≡ counted (length message) };

    /// The Message-ID of the message, as far as it has come.
    fn message_id(&self) -> Option<MessageId>
        ensures { (n : ℕ) (ts : List Transaction) (message : List ℕ) → IsDrafting self.now n ts message
            → option_map text_of result ≡ message_id_of message };

    /// The conversation has ended inside the data.
    fn cancel(&mut self)
        ensures same { site self.new ≡ site self.old }
        ensures drops { (n : ℕ) (ts : List Transaction) (message : List ℕ) → IsDrafting self.old n ts message
            → HasCome self.new n ts };

    /// The data has ended. A whole message is delivered to the recipients of the session, in their order, and another
    /// is refused.
    fn end(&mut self, session: &Session) -> Result<(), Verdict>
        requires content { session.now.session.state ≡ State.Content }
        requires here { session.now.site ≡ site self.old }
        ensures same { site self.new ≡ site self.old }
        ensures ended { (n : ℕ) (ts : List Transaction) (message : List ℕ) → IsDrafting self.old n ts message
            → EndsDraft (HasCome self.new) n ts session.now.session message
            (ended_so result (moment self.new) (outcomes self.new)) }
        ensures count { OnOk result (length (outcomes self.new) ≡ length session.now.session.recipients) }
        ensures refused { IfErr result (λ verdict. verdict ≢ Verdict.Whole) };

    /// Whether a recipient with that mailbox is answered now that it is busy; nothing is promised of it.
    fn is_busy(&self, mailbox: u32) -> bool;

    /// The session's transaction has ended otherwise than by its data (RSET, LHLO), or the conversation has.
    fn rests(&self);

    /// What became of the copies of the last message that was delivered, in the order of its recipients.
    fn outcomes(&self) -> &[Outcome]
        ensures { result.now ≡ outcomes self.now };
}
