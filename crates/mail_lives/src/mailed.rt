//! What conversations owe a mailbox can be written as letters, whatever was sent.

ghost use Rattle.std.specs.Prelude.{ℕ, List};
ghost use Rattle.std.specs.List.{AllByRecursion};
ghost use Rattle.mail_world.specs.Conversation.{Conversation};
ghost use Rattle.mail_world.specs.Lists.{due};
ghost use Rattle.mail_world.specs.Reading.{IsMailed};
ghost use Rattle.mail_world.specs.Site.{Site};

/// Each copy that a lane's conversations owe a mailbox names a sender and a client of one line, and its message is of
/// whole lines.
#[tactic(auto, using(crate::proofs::MailedDue::due_mailed))]
pub fn due_is_mailed()
    ensures { (site : Site) (lane box : ℕ) (conversations : List Conversation)
        → AllByRecursion IsMailed (due site lane box conversations) }
{}
