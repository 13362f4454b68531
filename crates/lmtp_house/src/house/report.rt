//! What a server hands back.

ghost use Rattle.std.specs.Prelude.{◌≡◌};
ghost use Rattle.std.specs.List.{list_any};

use lmtp_threads::{Tally, Watched};
use std::marker::Model;

/// Whether the last turn that a mailbox had broke.
pub fn has_failed(tallies: &[Tally]) -> bool
    ensures { result ≡ list_any (λ tally. tally.faulty) tallies.now }
{
    tallies.iter().any(|tally| tally.faulty)
}

/// How many blocks there are for messages on their way, and how many of these there may be.
#[derive(Clone, Copy, PartialEq, Eq)]
pub struct Room {
    pub blocks: u32,
    pub slots: u32,
}

/// All that was handed in, by lane and by mailbox, and what became of it.
#[derive(Drop)]
pub struct HouseReport<V, O, S, T, G> {
    pub visits: Vec<Watched<V, O>>,
    pub spools: Vec<Watched<S, T>>,
    pub gates: Vec<G>,
    /// How many conversations each lane held; a count stays at its largest value.
    pub conversations: Vec<u64>,
    pub tallies: Vec<Tally>,
    /// How many blocks there were for messages, and how many messages there could be.
    pub room: Room,
    /// The blocks that hold no message.
    pub free_blocks: u32,
}

impl<V, O, S, T, G> Model for HouseReport<V, O, S, T, G> {
    ghost use Rattle.lmtp_threads.specs.declared.watched.Watched.{Watched};
    ghost use Rattle.lmtp_house.specs.Handed.{HandedBack};

    ghost Value = { HandedBack (Watched V O) (Watched S T) };

    ghost view = { λ r. record {
      visits = r.visits.items;
      spools = r.spools.items;
      conversations = r.conversations.items;
      tallies = r.tallies.items;
      blocks = r.room.blocks;
      slots = r.room.slots;
    } };
}
