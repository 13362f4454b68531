//! What a record tells of a message besides its content.
ghost use Rattle.std.specs.Prelude.{◌≡◌, ◌≤◌, length};

use mail_world::Txn;
use mail_world::limits::{NAME_LIMIT, PATH_LIMIT};
use smallvec::SmallVec;
use std::alloc::Global;
use std::marker::Model;

/// The reverse path, the client's name, whether the message came as one in UTF-8, the transaction and the moment of a
/// delivery. Its texts lie in the value itself.
#[derive(Drop)]
pub struct Envelope {
    sender: SmallVec<u8, 256>,
    client: SmallVec<u8, 256>,
    utf8: bool,
    txn: Txn,
    moment: u32,
}

impl Model for Envelope {
    ghost use Rattle.mbox_record.specs.Envelope.{Envelope as Parts};

    ghost Value = { Parts };

    ghost view = { λ e. record {
      sender = e.sender.items;
      client = e.client.items;
      utf8 = e.utf8;
      txn = e.txn;
      moment = e.moment;
    } };

    ghost use Rattle.std.specs.Prelude.{◌≤◌, length};
    ghost use Rattle.mail_world.specs.declared.limits.TheConstants.{NAME_LIMIT, PATH_LIMIT};

    ghost invariant = { λ e. (length e.sender.items ≤ PATH_LIMIT) × (length e.client.items ≤ NAME_LIMIT) };
}

impl Envelope {
    /// The sender is without brackets and route, and empty for the null reverse path (RFC 5321, 4.5.5). `utf8`: the
    /// message came as one in UTF-8 (RFC 6531). The moment counts seconds since 1970.
    pub fn new(
        alloc: Global,
        sender: &[u8],
        client: &[u8],
        utf8: bool,
        txn: Txn,
        moment: u32,
    ) -> Envelope
        requires sender { length sender.now ≤ PATH_LIMIT }
        requires client { length client.now ≤ NAME_LIMIT }
        ensures { result ≡ record {
          sender = sender.now;
          client = client.now;
          utf8 = utf8;
          txn = txn;
          moment = moment;
        } }
    {
        Envelope {
            sender: copied(alloc, sender),
            client: copied(alloc, client),
            utf8,
            txn,
            moment,
        }
    }

    pub(crate) fn sender(&self) -> &[u8]
        ensures value { result.now ≡ self.now.sender }
        ensures size { length result.now ≤ PATH_LIMIT }
    {
        self.sender.as_slice()
    }

    pub(crate) fn client(&self) -> &[u8]
        ensures value { result.now ≡ self.now.client }
        ensures size { length result.now ≤ NAME_LIMIT }
    {
        self.client.as_slice()
    }

    pub(crate) fn utf8(&self) -> bool
        ensures { result ≡ self.now.utf8 }
    {
        self.utf8
    }

    pub(crate) fn txn(&self) -> Txn
        ensures { result ≡ self.now.txn }
    {
        self.txn
    }

    pub(crate) fn moment(&self) -> u32
        ensures { result ≡ self.now.moment }
    {
        self.moment
    }
}

// A text that fits inline takes no memory.
fn copied(alloc: Global, text: &[u8]) -> SmallVec<u8, 256>
    requires { length text.now ≤ 256 }
    ensures { result.items ≡ text.now }
{
    match SmallVec::from_slice(alloc, text) {
        Ok(copy) => copy,
        Err(_) => unreachable!(),
    }
}
