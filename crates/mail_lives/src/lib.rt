//! What a reader of mboxrd finds in a mailbox, whatever happened to it: copies were stored, turns were cut off by a
//! kill, a power cut or a spool that failed, the server began again, others changed, removed and added letters. Laws,
//! and no running code.
//!
//! It stands on the records, the mending and the turns of `mail_world`. It knows what a step leaves of the bytes, and
//! what a server's life is, and never which program takes it, nor whether the system keeps what was synced.
#![tactic(auto)]

pub mod laws;
pub mod mailed;
pub mod rows;
