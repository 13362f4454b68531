//! Where the marks of a message's head stand, which readers of mailboxes take for their own, as the message comes in
//! pieces.
//!
//! `find_mark` looks for the next one in what there is of the message, from the `Place` at which that begins. Bytes
//! that may yet begin one are held back until the next piece tells (`Held`).
#![tactic(auto)]

mod held;
mod marking;

pub use held::{HELD_LIMIT, Held};
pub use marking::{Found, Place, WAS, find_mark};
