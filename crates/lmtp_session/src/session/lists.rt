//! Writes to the session's lists, within the room that they have.

ghost use Rattle.std.specs.Prelude.{◌≡◌, ◌≤◌, [], length, vec_capacity};
ghost use Rattle.mail_world.specs.Session.{results, result_for_all};

use mail_world::{Outcome, Reply};
use smallvec::SmallVec;

/// Writes the text over the one before.
pub fn refill(text: &mut SmallVec<u8, 256>, bytes: &[u8])
    requires inline { text.old.capacity ≡ 256 }
    requires fits { length bytes.now ≤ 256 }
    ensures bytes { text.new.items ≡ bytes.now }
    ensures capacity { text.new.capacity ≡ text.old.capacity }
{
    text.clear();
    text.extend_from_slice(bytes).unwrap();
}

/// Adds the reply for each outcome and its recipient.
#[tactic(auto, using(crate::proofs::Results::results_more))]
pub fn push_results(answers: &mut Vec<Reply>, outcomes: &[Outcome], recipients: &[u32])
    requires empty { answers.old.items ≡ [] }
    requires count { length outcomes.now ≡ length recipients.now }
    requires room { length outcomes.now ≤ vec_capacity answers.old }
    ensures results { answers.new.items ≡ results outcomes.now recipients.now }
    ensures capacity { vec_capacity answers.new ≡ vec_capacity answers.old }
{
    for (i, outcome) in outcomes.iter().enumerate() {
        answers.push_reserved(Reply::Result(*outcome, recipients[i]));
    }
}

/// Adds the reply for the one outcome to each recipient.
pub fn push_result_for_all(answers: &mut Vec<Reply>, outcome: Outcome, recipients: &[u32])
    requires empty { answers.old.items ≡ [] }
    requires room { length recipients.now ≤ vec_capacity answers.old }
    ensures results { answers.new.items ≡ result_for_all outcome recipients.now }
    ensures capacity { vec_capacity answers.new ≡ vec_capacity answers.old }
{
    for mailbox in recipients {
        answers.push_reserved(Reply::Result(outcome, *mailbox));
    }
}
