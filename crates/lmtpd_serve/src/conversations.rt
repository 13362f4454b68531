//! How many conversations a server holds.

use lmtp_tcp::Bounds;
use slow_boxes::SlowBoxes;
use std::sync::Arc;

/// The conversations of a server.
#[derive(Drop)]
pub struct Conversations<E: Drop> {
    /// How many are held at once, each by a lane.
    pub lanes: u32,
    /// How many are held in all; the lanes share them out.
    pub count: u64,
    /// What each of them may ask of its client.
    pub bounds: Bounds,
    /// When the server is to end though not all were held, and when each of them is.
    pub curfew: Arc<E>,
    /// Which mailboxes hold up their lanes.
    pub slow: Arc<SlowBoxes>,
}
