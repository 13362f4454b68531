//! What lanes know of mailboxes that hold up others.

/// Is told of a lane's copies, and asked whether a mailbox is busy. Nothing is promised of it, and a server where no
/// mailbox holds up others needs none.
pub trait SlowMailboxes {
    /// The lane is to give that mailbox a copy.
    fn posts(&self, lane: u32, mailbox: u32) {
        let _ = (lane, mailbox);
    }

    /// Whether a recipient of the lane with that mailbox is answered now that it is busy.
    fn is_busy(&self, lane: u32, mailbox: u32) -> bool {
        let _ = (lane, mailbox);
        false
    }

    /// The lane's transaction has ended.
    fn rests(&self, lane: u32) {
        let _ = lane;
    }
}
