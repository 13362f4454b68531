//! Lines and data as they come off the wire, in pieces of any size (RFC 5321, 2.3.8 and 4.5.2).
//!
//! A conversation takes its command lines from `Wire` and a message from `Dot`, the same for every cutting of the
//! bytes; `stuff` makes what a client sends. It never knows what a line means, how large a message may be, or where
//! bytes come from.
#![tactic(auto)]

mod dot;
mod stuffing;
mod wire;

pub use dot::{Dot, Fed};
pub use stuffing::stuff;
pub use wire::{Got, Took, Wire, first_line};
