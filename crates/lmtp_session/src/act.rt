//! What a server does after a step of its session.

use mail_world::Reply;

/// What the session asks for.
#[derive(Clone, Copy, Debug, PartialEq, Eq)]
pub enum Act {
    /// The reply is sent, and the next line read.
    Say(Reply),
    /// The reply 354 is sent, and the data of a message read (RFC 5321, 4.1.1.4).
    ReadData,
    /// The message goes to that many recipients; their outcomes are needed.
    Deliver(u32),
    /// That many replies are sent, one for each recipient (RFC 2033, 4.2), and the next line is read.
    Answer(u32),
    /// The reply is sent, and the conversation ends.
    Quit(Reply),
}
