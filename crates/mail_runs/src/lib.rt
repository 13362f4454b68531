//! From what a server's lanes and workers did, at times that rise, to an orderly run of the model of `mail_world`:
//! laws, and no running code.
//!
//! The layers with channels and threads use what a deed is, with its time; the house uses that there is a run of the
//! model which comes to the same. It knows lists of deeds, and never a channel, a thread or a mailbox's file.
#![tactic(auto)]

pub mod histories;
