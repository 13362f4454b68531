//! Laws of the definition: each is the contract of a function with an empty body.

ghost use Rattle.std.specs.Prelude.{◌≡◌, ◌≤◌, ℕ, List, ◌++◌, length, take};
ghost use Rattle.mail_world.specs.declared.limits.TheConstants.{DATA_BUFFER_SIZE};
ghost use Rattle.mail_head.specs.MessageIds.{message_id_of};

/// A message's first bytes tell its id, whatever follows.
#[tactic(auto, using(crate::proofs::FirstBytes::first_bytes_tell, crate::proofs::FirstBytes::none_else_tells))]
pub fn first_bytes_tell()
    ensures first { (message : List ℕ) → message_id_of (take DATA_BUFFER_SIZE message) ≡ message_id_of message }
    ensures full { (first more : List ℕ) → DATA_BUFFER_SIZE ≤ length first
        → message_id_of (first ++ more) ≡ message_id_of first }
{}
