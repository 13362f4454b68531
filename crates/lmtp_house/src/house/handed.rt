//! What a server is handed.

use lmtp_threads::Watched;
use std::marker::Model;

/// All that is handed in, by lane and by mailbox, and how many copies may wait in a worker thread's channel. There are
/// as many gates as spools.
#[derive(Drop)]
pub struct HandedIn<V, O, S, T, G> {
    pub visits: Vec<Watched<V, O>>,
    pub spools: Vec<Watched<S, T>>,
    pub gates: Vec<G>,
    pub quotas: Vec<Option<u64>>,
    pub capacity: usize,
}

impl<V, O, S, T, G> Model for HandedIn<V, O, S, T, G> {
    ghost use Rattle.std.specs.Prelude.{◌≡◌, vec_len};
    ghost use Rattle.lmtp_threads.specs.declared.watched.Watched.{Watched};
    ghost use Rattle.lmtp_house.specs.Handed.{handed_in};
    ghost use Rattle.lmtp_house.specs.Handed as parts;

    ghost Value = { parts.HandedIn (Watched V O) (Watched S T) };

    ghost view = { λ h. handed_in h.visits.items h.spools.items h.capacity h.quotas.items };

    ghost invariant = { λ h. vec_len h.gates ≡ vec_len h.spools };
}
