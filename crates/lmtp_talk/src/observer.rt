//! Who is told of conversations.

ghost use Rattle.std.specs.Prelude.{◌≡◌, [], ◌∷◌, List, Option};
ghost use Rattle.lmtp_text.specs.Readings.{line_read};
ghost use Rattle.lmtp_talk.specs.Entries.{Entry, OfLine, OfEnd, with_entries};
ghost use Rattle.lmtp_talk.specs.Telling.{arrived_entry};

use crate::client::Traffic;
use crate::ending::EndCause;
use crate::telling::Arrived;
use lmtp_text::Reading;
use mail_world::Reply;

/// Sees the conversations of a lane, one after another. It is told of replies as they are said, and shows nothing of
/// them before they were written.
pub trait Observer: Drop {
    // what it was told, where it says that
    ghost told: { Self → Option (List Entry) };

    /// The reply to a command line as it was read, which has no line end, and is empty where it was too long. The reply
    /// waits to be written.
    fn command(&mut self, said: Reading<'_>, reply: Reply)
        ensures { told self.new ≡ with_entries (told self.old) (OfLine (line_read said.entry) reply ∷ []) };

    /// The reply for a recipient's copy of that message, to a client who gave that name. It waits to be written.
    fn copy(&mut self, arrived: Arrived, client: &[u8], reply: Reply)
        ensures { told self.new ≡ with_entries (told self.old) (arrived_entry arrived client.now reply ∷ []) };

    /// The replies that it was told of were written.
    fn written(&mut self)
        ensures { told self.new ≡ told self.old };

    /// Bytes of the client have come.
    fn came(&mut self)
        ensures { told self.new ≡ told self.old };

    /// The conversation ended for that cause once that much had come and gone; its replies were written, or never are.
    fn ended(&mut self, cause: EndCause, traffic: Traffic)
        ensures { told self.new ≡ with_entries (told self.old) (OfEnd cause ∷ []) };
}

impl Observer for () {
    ghost use Rattle.std.specs.Prelude.{None};

    ghost told = { λ _. None };

    /// Nobody is told.
    fn command(&mut self, _said: Reading<'_>, _reply: Reply) {}

    /// Nobody is told.
    fn copy(&mut self, _arrived: Arrived, _client: &[u8], _reply: Reply) {}

    fn written(&mut self) {}

    fn came(&mut self) {}

    /// Nobody is told.
    fn ended(&mut self, _cause: EndCause, _traffic: Traffic) {}
}
