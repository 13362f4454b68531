//! Whether bytes have the form of a mailbox (RFC 4155, Appendix A), in memory that doesn't grow with them.
//!
//! The check of files uses how many letters the bytes of a reader hold, or the first place that breaks the form, and the
//! first NUL before that. It never knows of files or locks, and its buffer is lent to it. Of `mbox_letters` it uses
//! definitions and lemmas alone.
#![tactic(auto)]

mod fault;
mod form;
mod found;
mod reading;
mod state;

pub use fault::{BadForm, Unread};
pub use found::{Found, NulAt};
pub use reading::check_mailbox;
