//! What the rule of a channel says, in the words of what lanes and receivers are told.

ghost use Rattle.mail_post.specs.Order.{KeepsOrder, IsNothingElse, NamesAll, AreTold};

use crate::rule::FromSender;

/// Between any two steps of the threads at a channel: what was taken and then what waits are, of each lane, what the
/// lane was told was accepted, and nothing of another than the lanes. A mark that was put names all of it, and no
/// message of its lane stands after it.
pub fn each_lane_in_order<M: FromSender>()
    ensures order { KeepsOrder M.sender }
    ensures others { IsNothingElse M.sender }
    ensures marks { NamesAll M.sender }
    ensures told { AreTold M.sender }
{}
