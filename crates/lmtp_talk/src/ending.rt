//! Why a conversation ended.

/// Why a conversation ended.
#[derive(Clone, Copy, Debug, PartialEq, Eq)]
pub enum EndCause {
    /// The client said QUIT.
    Quit = 1,
    /// The peer had no more bytes.
    EndOfInput,
    /// A read failed.
    ReadFault,
    /// A write of the replies failed.
    WriteFault,
    /// The peer said that the server stops.
    Stopped,
    /// As many reads were made as one conversation may make.
    ReadBound,
}
