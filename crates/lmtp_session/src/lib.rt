//! The session of an LMTP server: which reply each command gets, and where the session stands then (RFC 2033, RFC
//! 5321), in memory that is taken once.
//!
//! A conversation uses one step of the table for each call; an `Act` says what comes next. It never knows how lines and
//! replies travel, what a message says, or who delivers it: it is told a verdict and outcomes.
#![tactic(auto)]

pub mod act;
pub mod session;

pub use act::Act;
pub use session::Session;
