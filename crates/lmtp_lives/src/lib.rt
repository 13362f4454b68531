//! Runs of a server, one after another, each with a site of its own, each of which may have been killed or have lost
//! its power: what any client was told 250 for is read back from its mailbox. Laws, and no running code.
//!
//! It stands on what a run of `lmtp_house` comes to and on the lives of `mail_lives`, and knows neither what clients
//! and spools are nor why a run ended.
#![tactic(auto)]

mod laws;
mod rows;

pub use laws::{
    mailboxes_are_named, runs_are_lives, spoilt_runs_are_found, told_is_read_back, told_is_stored,
};
pub use rows::killed_runs_exist;
