//! The rule of a channel. Its types stand in proofs alone, but for `Parcel`.

ghost use Rattle.std.specs.Prelude.{ℕ};

use crossbeam_channel::protocol::{Join, Lesson, Outcome, Protocol, Split};
use std::collections::LinkedList;
use std::marker::{Brand, PhantomData};

/// A time, in proofs alone, after which a step is to be. A caller that passes `Brand` picks it.
pub trait Moment {
    ghost after: { ℕ };
}

impl Moment for Brand {
    ghost after = { 0 };
}

/// How many parcels a channel has room for, in proofs alone. A caller that passes `Brand` picks it.
pub trait Room {
    ghost room: { ℕ };
}

impl Room for Brand {
    ghost room = { 0 };
}

/// A message that says the number of its sender.
pub trait FromSender: Drop {
    ghost sender: { Self → ℕ };
}

/// What goes through the channel: a message, or a lane's closing mark.
#[derive(Drop)]
pub enum Parcel<M: Drop> {
    Copy(M),
    Mark(u32),
}

/// What one thread knows of a channel.
pub struct View<M: Drop> {
    /// Whether it is a lane's, which may put messages, and then its closing mark.
    pub sends: bool,
    pub lane: u32,
    pub sent: LinkedList<M>,
    /// When each of these was accepted.
    pub sent_at: LinkedList<u64>,
    pub shut: bool,
    /// Whether it is the receiver's, which knows how many lanes there are, and what was taken.
    pub takes: bool,
    pub lanes: u32,
    pub got: LinkedList<Parcel<M>>,
    /// When each of the messages among these was accepted, and when it was taken.
    pub got_at: LinkedList<u64>,
    pub took_at: LinkedList<u64>,
    /// What the first lanes sent in all, and when each was accepted.
    pub known: LinkedList<LinkedList<M>>,
    pub known_at: LinkedList<LinkedList<u64>>,
    /// Where it is a lane's or the receiver's: how many parcels the channel has room for.
    pub room: usize,
}

pub struct LaneOrder<M> {
    marker: PhantomData<M>,
}

impl<M: FromSender> Protocol<Parcel<M>, View<M>> for LaneOrder<M> {
    ghost use Rattle.std.specs.Prelude.{[]};
    ghost use Rattle.mail_post.specs.Views.{taker};
    ghost use Rattle.mail_post.specs.Rule.{Carries};

    ghost holds = { Carries M.sender };

    ghost first = { taker 0 0 [] [] [] };
}

/// A lane's accepted parcel, a message after that time.
pub struct Offers<K> {
    marker: PhantomData<K>,
}

impl<M: FromSender, K: Moment> Outcome<Parcel<M>, View<M>> for Offers<K> {
    ghost use Rattle.mail_post.specs.Views.{IsPut};

    ghost then = { IsPut K.after };
}

impl<M: FromSender, K: Moment> Lesson<Parcel<M>, View<M>> for Offers<K> {
    ghost fact = { λ v items. Unit {0} };
}

/// What the receiver took, a message after that time.
pub struct Takes<K> {
    marker: PhantomData<K>,
}

impl<M: FromSender, K: Moment> Outcome<Parcel<M>, View<M>> for Takes<K> {
    ghost use Rattle.mail_post.specs.Views.{IsTook};
    ghost use Rattle.mail_post.specs.Rule.{IsFair};
    ghost use Rattle.mail_post.specs.Times.{HaveMoments};

    ghost then = { λ v x w. IsTook K.after v x w × IsFair M.sender w.lanes w.got × HaveMoments w.got_at w.took_at };
}

impl<M: FromSender, K: Moment> Lesson<Parcel<M>, View<M>> for Takes<K> {
    ghost fact = { λ v items. Unit {0} };
}

/// The receiver's pass makes those of the lanes, by their numbers. All know how many parcels there is room for.
pub struct Lanes<K> {
    marker: PhantomData<K>,
}

impl<M: FromSender, K: Room> Split<View<M>> for Lanes<K> {
    ghost use Rattle.std.specs.Prelude.{[], ◌+◌, false};
    ghost use Rattle.mail_post.specs.Views.{taker, sender};

    ghost left = { λ v. taker K.room (v.lanes + 1) v.got v.got_at v.took_at };

    ghost right = { λ v. sender K.room v.lanes [] [] false };
}

/// A pass that knows of no lane, beside any other.
pub struct Opens;

impl<M: FromSender> Split<View<M>> for Opens {
    ghost use Rattle.std.specs.Prelude.{[]};
    ghost use Rattle.mail_post.specs.Views.{knower};

    ghost left = { λ v. v };

    ghost right = { λ v. knower [] [] };
}

/// One more lane of which all is known.
pub struct Ends;

impl<M: FromSender> Join<View<M>> for Ends {
    ghost use Rattle.std.specs.Prelude.{[], ◌∷◌, ◌++◌};
    ghost use Rattle.mail_post.specs.Views.{knower};

    ghost both = { λ v w. knower (v.known ++ w.sent ∷ []) (v.known_at ++ w.sent_at ∷ []) };

    ghost spent = { knower [] [] };
}

/// What was sent beside what was taken.
pub struct Settles;

impl<M: FromSender> Join<View<M>> for Settles {
    ghost use Rattle.std.specs.Prelude.{[]};
    ghost use Rattle.mail_post.specs.Views.{knower, settled};

    ghost both = { settled };

    ghost spent = { knower [] [] };
}

impl<M: FromSender> Lesson<Parcel<M>, View<M>> for Settles {
    ghost use Rattle.mail_post.specs.Rule.{Agrees, HasPassed};

    ghost fact = { λ v items. Agrees M.sender v × HasPassed M.sender v };
}
