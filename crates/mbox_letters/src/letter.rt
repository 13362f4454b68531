//! A letter as a reader of the mailbox gets it.
ghost use Rattle.std.specs.Prelude.{◌≡◌, ◌++◌, [], ◌∷◌};
ghost use Rattle.mail_world.specs.Text.{lf, IsOneLine, EmptyOrEndsIn};
ghost use Rattle.mail_world.specs.Reading.{IsLetter};
ghost use Rattle.mbox_letters.specs.Letters.{letter_headed};

use std::marker::Model;

/// A letter of a mailbox: what follows `From ` on its From line, and the lines after it, each with its LF and without
/// the quoting.
#[derive(Drop)]
pub struct Letter {
    head: Vec<u8>,
    body: Vec<u8>,
}

impl Model for Letter {
    ghost use Rattle.mail_world.specs.Reading as m;

    ghost Value = { m.Letter };

    ghost view = { λ s. record { head = s.head.items; body = s.body.items } };

    ghost invariant = { λ s. m.IsLetter (record { head = s.head.items; body = s.body.items }) };
}

impl Letter {
    pub(crate) fn new(head: Vec<u8>, body: Vec<u8>) -> Letter
        requires one_line { IsOneLine head.items }
        requires lines { EmptyOrEndsIn (lf ∷ []) body.items }
        ensures { result ≡ letter_headed head.items body.items }
    {
        Letter { head, body }
    }

    /// What follows `From ` on the From line, without the LF: an address and a date, as a rule.
    pub fn head(&self) -> &[u8]
        ensures value { result.now ≡ self.now.head }
        ensures line { IsOneLine result.now }
    {
        &self.head
    }

    /// The lines after the From line as they were before they were quoted, each with LF at its end. The empty line
    /// that ends the letter isn't one of them.
    pub fn body(&self) -> &[u8]
        ensures value { result.now ≡ self.now.body }
        ensures lines { EmptyOrEndsIn (lf ∷ []) result.now }
    {
        &self.body
    }
}
