//! Whether a message is malformed, in pieces of any size.
//!
//! A lane hands each piece of a message's data on, and asks once the data has ended; the answer equals the definition
//! for every cutting. It never knows how long a message is, where it is kept, or what becomes of one that is malformed.
#![tactic(auto)]

mod form;
mod sound_lines;

pub use form::MessageForm;
