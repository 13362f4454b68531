//! Whatever is under way in the house of `mail_world` can finish: laws over the model of a server, and no running code.
//!
//! `mail_runs` uses what an orderly run is. It knows the model alone, and never what a program does, nor when.
#![tactic(auto)]

pub mod ends;
pub mod finds_room;
pub mod in_turn;
pub mod moved;
pub mod orderly;
pub mod standing;
