//! What the head of a message says of it: its Message-ID, in a value that takes no memory.
//!
//! `message_id_of` equals its definition for any text, and looks at as much of a message as a lane has of it at first
//! (`DATA_BUFFER_SIZE` of `mail_world`). The layers above hand the id from the conversation to its line of the log. It
//! never knows which message it is, or where it came from.
#![tactic(auto)]

pub mod laws;
mod message_id;
pub mod rows;
mod text;

pub use message_id::{MESSAGE_ID_LIMIT, MessageId, message_id_of};
pub use text::Text;
