//! What all lanes and workers share.

use lmtp_text::Site;
use msg_depot::{Depot, DepotName};
use std::alloc::Global;
use std::sync::Arc;

/// What all lanes and workers share.
#[derive(Drop)]
pub struct Shared<N: DepotName, C> {
    pub alloc: Global,
    pub site: Arc<Site>,
    pub clock: Arc<C>,
    pub depot: Arc<Depot<N>>,
}
