//! Messages in blocks of one size, taken once: each message is a chain of blocks under a key that is given once.
//!
//! The depot uses each call as one event on a map of messages. It never knows of threads, of who holds a message (it
//! counts the holds), or of what a message says.
#![tactic(auto)]

pub mod arena;
pub mod bookmark;
pub mod fault;
pub mod key;
mod slot;
mod store;

pub use arena::Arena;
pub use bookmark::Bookmark;
pub use fault::ArenaFault;
pub use key::Key;
