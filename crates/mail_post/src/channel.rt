//! A channel from numbered lanes to one receiver. Copies and slips both go through it.

ghost use Rattle.std.specs.Prelude.{◌≡◌, true, false, ◌<◌, ◌+◌, [], ◌∷◌, ◌++◌, IfOk, IfErr, IfSome, OnOk, OnErr};
ghost use Rattle.std.specs.Prelude.{length};
ghost use Rattle.crossbeam_channel.specs.Claims.{IsSeatAt};
ghost use Rattle.crossbeam_channel.specs.Ends.{sends_on, receives_on, ruled_capacity};
ghost use Rattle.mail_post.specs.Views.{sender, taker, IsTook};
ghost use Rattle.mail_post.specs.Rule.{IsFair};
ghost use Rattle.mail_post.specs.Times.{HaveMoments};
ghost use Rattle.mail_post.specs.Channel.{view_of, taken, IsNext, IsDrained, TookSome, TookAll};
ghost use Rattle.mail_post.specs.Channel.{new_senders, new_inbox, AreSenders, AreSendersOf, sent_by, sent_at_by};
ghost use Rattle.mail_post.specs.Channel.{IsAccepted, IsTimed, HasSameTimes, HasPassedThrough};

use crate::rule::{
    Ends, FromSender, LaneOrder, Lanes, Moment, Offers, Opens, Parcel, Room, Settles, Takes, View,
};
use crossbeam_channel::{Pass, RuledReceiver, RuledSender, TryRecvError, bounded_with};
use std::alloc::{AllocError, Global};
use std::marker::{Brand, Model};
use std::sync::Wait;
use thiserror::Error;

/// Why nothing more is taken.
#[derive(Clone, Copy, Debug, PartialEq, Eq, Error)]
pub enum Gone {
    /// Every lane's closing mark was taken, so all that was accepted has been.
    #[error("closed")]
    Closed = 1,
    /// The channel answered that its other end is gone.
    #[error("the other end is gone")]
    Lost,
}

/// A channel with a sender for each lane, numbered from 0, and its receiver.
pub fn open_channel<M: FromSender>(
    alloc: Global,
    capacity: usize,
    lanes: u32,
) -> Result<(Vec<ChannelSender<M>>, ChannelReceiver<M>), AllocError>
    requires { 0 < capacity }
    ensures senders { IfOk result (λ ends. ends.0.items ≡ new_senders ends.1.channel lanes) }
    ensures receiver { IfOk result (λ ends. ends.1 ≡ new_inbox ends.1.channel capacity lanes) }
{
    let mut senders = Vec::with_capacity(alloc, lanes as usize)?;
    let (to, from, mut first) = bounded_with::<Parcel<M>, View<M>, LaneOrder<M>, Global>(
        alloc, capacity,
    )?;
    for lane in 0..lanes {
        let pass = lane_pass::<M, Brand>(&to, &mut first);
        let end = to.try_clone()?;
        senders.push(ChannelSender {
            end,
            pass,
            number: lane,
            gone: false,
        })?;
    }
    Ok((
        senders,
        ChannelReceiver {
            end: from,
            pass: first,
            lanes,
            marks: 0,
            gone: None,
        },
    ))
}

// The next lane's pass, made from the receiver's. How many parcels there is room for is picked with the first.
fn lane_pass<M: FromSender, K: Room>(
    to: &RuledSender<Parcel<M>, View<M>, LaneOrder<M>>,
    first: &mut Pass<Parcel<M>, View<M>>,
) -> Pass<Parcel<M>, View<M>>
    requires seat { IsSeatAt (sends_on to.now) first.old }
    requires takes { (view_of first.old).takes ≡ true }
    requires room { 0 < (view_of first.old).lanes → (view_of first.old).room ≡ K.room }
    ensures seats { IsSeatAt (sends_on to.now) first.new × IsSeatAt (sends_on to.now) result }
    ensures receiver { view_of first.new ≡ taker K.room ((view_of first.old).lanes + 1) (view_of first.old).got
        (view_of first.old).got_at (view_of first.old).took_at }
    ensures lane { view_of result ≡ sender K.room (view_of first.old).lanes [] [] false }
{
    to.another::<Lanes<K>>(first)
}

/// A sender of a channel.
#[derive(Drop)]
pub struct ChannelSender<M: FromSender> {
    end: RuledSender<Parcel<M>, View<M>, LaneOrder<M>>,
    pass: Pass<Parcel<M>, View<M>>,
    number: u32,
    gone: bool,
}

impl<M: FromSender> Model for ChannelSender<M> {
    ghost use Rattle.std.specs.Prelude.{◌≡◌, false};
    ghost use Rattle.crossbeam_channel.specs.Claims.{IsSeatAt};
    ghost use Rattle.crossbeam_channel.specs.Ends.{sends_on, ruled_capacity};
    ghost use Rattle.mail_post.specs.Views.{sender};
    ghost use Rattle.mail_post.specs.Channel.{Sender, channel_of, view_of};

    ghost Value = { Sender M };

    ghost view = { λ s. record {
      channel = channel_of s.pass;
      number = s.number;
      sent = (view_of s.pass).sent;
      sent_at = (view_of s.pass).sent_at;
      gone = s.gone;
    } };

    ghost invariant = { λ s. IsSeatAt (sends_on s.end) s.pass
        × (view_of s.pass ≡ sender (ruled_capacity (sends_on s.end)) s.number (view_of s.pass).sent
        (view_of s.pass).sent_at false) };
}

impl<M: FromSender> ChannelSender<M> {
    /// Its number.
    pub fn number(&self) -> u32
        ensures { result ≡ self.now.number }
    {
        self.number
    }

    /// Whether a post of it was handed back. Then it stays so.
    pub fn is_gone(&self) -> bool
        ensures { result ≡ self.now.gone }
    {
        self.gone
    }

    /// Ok where the channel has accepted the post at its end, after the picked time.
    pub fn offer<K: Moment, R: Wait>(&mut self, rt: &R, post: M) -> Result<(), M>
        requires { M.sender post ≡ self.old.number }
        ensures accepted { OnOk result (IsAccepted K.after post self.old self.new) }
        ensures gone { OnErr result (self.new ≡ record self.old { gone = true }) }
        ensures back { IfErr result (λ back. back ≡ post) }
    {
        match self
            .end
            .send_as::<Offers<K>, R>(rt, &mut self.pass, Parcel::Copy(post))
        {
            Ok(()) => Ok(()),
            Err(back) => {
                self.gone = true;
                match back.into_inner() {
                    Parcel::Copy(post) => Err(post),
                    Parcel::Mark(_) => unreachable!(),
                }
            }
        }
    }
}

/// The receiving end of a channel.
#[derive(Drop)]
pub struct ChannelReceiver<M: FromSender> {
    end: RuledReceiver<Parcel<M>, View<M>, LaneOrder<M>>,
    pass: Pass<Parcel<M>, View<M>>,
    lanes: u32,
    marks: u32,
    gone: Option<Gone>,
}

impl<M: FromSender> Model for ChannelReceiver<M> {
    ghost use Rattle.std.specs.Prelude.{◌≡◌, ◌<◌};
    ghost use Rattle.crossbeam_channel.specs.Claims.{IsSeatAt};
    ghost use Rattle.crossbeam_channel.specs.Ends.{receives_on, ruled_capacity};
    ghost use Rattle.mail_post.specs.Channel.{Inbox, IsInbox, channel_of, view_of};

    ghost Value = { Inbox M };

    ghost view = { λ r. record {
      channel = channel_of r.pass;
      capacity = ruled_capacity (receives_on r.end);
      lanes = r.lanes;
      got = (view_of r.pass).got;
      got_at = (view_of r.pass).got_at;
      took_at = (view_of r.pass).took_at;
      gone = r.gone;
    } };

    ghost invariant = { λ r. IsSeatAt (receives_on r.end) r.pass
        × IsInbox M.sender r.lanes r.marks r.gone (view_of r.pass)
        × (0 < r.lanes → (view_of r.pass).room ≡ ruled_capacity (receives_on r.end)) };
}

impl<M: FromSender> ChannelReceiver<M> {
    /// The oldest post, taken after the picked time. After a `Gone` each later call answers the same, and receives
    /// nothing.
    pub fn take<K: Moment, R: Wait>(&mut self, rt: &R) -> Result<M, Gone>
        ensures same { (self.new.channel ≡ self.old.channel) × (self.new.lanes ≡ self.old.lanes)
            × (self.new.capacity ≡ self.old.capacity) }
        ensures post { IfOk result (λ post. taken self.new ≡ taken self.old ++ post ∷ []) }
        ensures lane { IfOk result (λ post. M.sender post < self.old.lanes) }
        ensures timed { OnOk result (IsTimed K.after self.old self.new) }
        ensures open_still { OnOk result ((self.old.gone ≡ None) × (self.new.gone ≡ None)) }
        ensures nothing { OnErr result (taken self.new ≡ taken self.old) }
        ensures no_time { OnErr result (HasSameTimes self.old self.new) }
        ensures gone { IfErr result (λ why. self.new.gone ≡ Some why) }
        ensures closed { IfErr result (λ why. why ≡ Gone.Closed → IsDrained M.sender self.new) }
        ensures later { IfSome self.old.gone (λ why. (result ≡ Err why) × (self.new ≡ self.old)) }
    {
        if let Some(why) = self.gone {
            return Err(why);
        }
        for _ in rt.forever() {
            if let Some(answer) = self.next::<K, R>(rt, true) {
                return answer;
            }
        }
        unreachable!()
    }

    /// As `take`, where nothing was found gone yet, but it doesn't wait: None where nothing is there now, or what came
    /// was the closing mark of a lane while another's is missing.
    pub fn try_take<K: Moment, R: Wait>(&mut self, rt: &R) -> Option<Result<M, Gone>>
        requires { self.old.gone ≡ None }
        ensures same { (self.new.channel ≡ self.old.channel) × (self.new.lanes ≡ self.old.lanes)
            × (self.new.capacity ≡ self.old.capacity) }
        ensures next { IsNext M.sender K.after self.old self.new result }
    {
        self.next::<K, R>(rt, false)
    }

    // What one parcel answers: None where it was a mark, and another is missing, or where it isn't waited for and none
    // is there.
    fn next<K: Moment, R: Wait>(&mut self, rt: &R, waits: bool) -> Option<Result<M, Gone>>
        requires { self.old.gone ≡ None }
        ensures same { (self.new.channel ≡ self.old.channel) × (self.new.lanes ≡ self.old.lanes)
            × (self.new.capacity ≡ self.old.capacity) }
        ensures next { IsNext M.sender K.after self.old self.new result }
    {
        match receive::<M, K, R>(rt, &self.end, &mut self.pass, waits) {
            Ok(Parcel::Copy(post)) => Some(Ok(post)),
            Ok(Parcel::Mark(_)) => {
                let lanes = self.lanes;
                self.marks += 1;
                if self.marks < lanes {
                    return None;
                }
                self.gone = Some(Gone::Closed);
                Some(Err(Gone::Closed))
            }
            Err(TryRecvError::Empty) => None,
            Err(TryRecvError::Disconnected) => {
                self.gone = Some(Gone::Lost);
                Some(Err(Gone::Lost))
            }
        }
    }
}

// The oldest parcel, a message taken after the picked time. Where it isn't waited for there may be none.
fn receive<M: FromSender, K: Moment, R: Wait>(
    rt: &R,
    end: &RuledReceiver<Parcel<M>, View<M>, LaneOrder<M>>,
    pass: &mut Pass<Parcel<M>, View<M>>,
    waits: bool,
) -> Result<Parcel<M>, TryRecvError>
    requires seat { IsSeatAt (receives_on end.now) pass.old }
    requires takes { (view_of pass.old).takes ≡ true }
    ensures seat { IsSeatAt (receives_on end.now) pass.new }
    ensures took { IfOk result (λ parcel. IsTook K.after (view_of pass.old) parcel (view_of pass.new)
        × IsFair M.sender (view_of pass.new).lanes (view_of pass.new).got
        × HaveMoments (view_of pass.new).got_at (view_of pass.new).took_at) }
    ensures nothing { OnErr result (view_of pass.new ≡ view_of pass.old) }
{
    if !waits {
        return end.try_recv_as::<Takes<K>, R>(rt, pass);
    }
    match end.recv_as::<Takes<K>, R>(rt, pass) {
        Ok(parcel) => Ok(parcel),
        Err(_) => Err(TryRecvError::Disconnected),
    }
}

/// The senders of a channel, whose marks are put, but for those from the first on that found the receiver gone.
#[derive(Drop)]
pub struct ChannelClosed<M: FromSender> {
    end: RuledSender<Parcel<M>, View<M>, LaneOrder<M>>,
    pass: Pass<Parcel<M>, View<M>>,
    is_lost: bool,
}

impl<M: FromSender> Model for ChannelClosed<M> {
    ghost use Rattle.std.specs.Prelude.{◌≡◌, length};
    ghost use Rattle.crossbeam_channel.specs.Claims.{IsSeatAt};
    ghost use Rattle.crossbeam_channel.specs.Ends.{sends_on};
    ghost use Rattle.mail_post.specs.Views.{knower};
    ghost use Rattle.mail_post.specs.Channel.{Sent, channel_of, view_of};

    ghost Value = { Sent M };

    ghost view = { λ c. record {
      channel = channel_of c.pass;
      sent = (view_of c.pass).known;
      sent_at = (view_of c.pass).known_at;
    } };

    ghost invariant = { λ c. IsSeatAt (sends_on c.end) c.pass
        × (view_of c.pass ≡ knower (view_of c.pass).known (view_of c.pass).known_at)
        × (length (view_of c.pass).known_at ≡ length (view_of c.pass).known) };
}

// The lane's mark, unless the receiver is known to be gone. True where it is.
fn put_mark<M: FromSender, R: Wait>(
    rt: &R,
    end: &RuledSender<Parcel<M>, View<M>, LaneOrder<M>>,
    pass: &mut Pass<Parcel<M>, View<M>>,
    lane: u32,
    is_lost: bool,
) -> bool
    requires seat { IsSeatAt (sends_on end.now) pass.old }
    requires knows { view_of pass.old ≡ sender (ruled_capacity (sends_on end.now)) lane (view_of pass.old).sent
        (view_of pass.old).sent_at false }
    ensures seat { IsSeatAt (sends_on end.now) pass.new }
    ensures knows { ((view_of pass.new).sends ≡ true) × ((view_of pass.new).lane ≡ lane)
        × ((view_of pass.new).sent ≡ (view_of pass.old).sent)
        × ((view_of pass.new).sent_at ≡ (view_of pass.old).sent_at) }
{
    if is_lost {
        return true;
    }
    match end.send_as::<Offers<Brand>, R>(rt, pass, Parcel::Mark(lane)) {
        Ok(()) => false,
        Err(_) => true,
    }
}

impl<M: FromSender> ChannelClosed<M> {
    // Lane 0's mark.
    fn first<R: Wait>(rt: &R, from: ChannelSender<M>) -> ChannelClosed<M>
        requires { from.number ≡ 0 }
        ensures { (result.channel ≡ from.channel) × (result.sent ≡ from.sent ∷ [])
            × (result.sent_at ≡ from.sent_at ∷ []) }
    {
        let ChannelSender {
            end,
            pass: mut mine,
            number,
            gone: _,
        } = from;
        let mut pass = end.another::<Opens>(&mut mine);
        let is_lost = put_mark(rt, &end, &mut mine, number, false);
        end.absorb::<Ends>(&mut pass, mine);
        ChannelClosed { end, pass, is_lost }
    }

    // The next lane's mark, unless the receiver is gone.
    fn join<R: Wait>(&mut self, rt: &R, from: ChannelSender<M>)
        requires channel { from.channel ≡ self.old.channel }
        requires next { from.number ≡ length self.old.sent }
        ensures { (self.new.channel ≡ self.old.channel) × (self.new.sent ≡ self.old.sent ++ from.sent ∷ [])
            × (self.new.sent_at ≡ self.old.sent_at ++ from.sent_at ∷ []) }
    {
        let ChannelSender {
            end,
            pass: mut mine,
            number,
            gone: _,
        } = from;
        self.is_lost = put_mark(rt, &end, &mut mine, number, self.is_lost);
        self.end.absorb::<Ends>(&mut self.pass, mine);
    }
}

/// Puts one closing mark for each sender, in lane order. Where the receiver is gone it puts no more, and answers the
/// same.
pub fn close_channel<M: FromSender, R: Wait>(
    senders: Vec<ChannelSender<M>>,
    rt: &R,
) -> ChannelClosed<M>
    requires { AreSenders senders.items }
    ensures channel { AreSendersOf result.channel senders.items }
    ensures sent { result.sent ≡ sent_by senders.items }
    ensures sent_at { result.sent_at ≡ sent_at_by senders.items }
{
    let mut rest = senders.into_iter();
    let Some(first) = rest.next() else {
        unreachable!();
    };
    let mut closed = ChannelClosed::first(rt, first);
    for sender in rest {
        closed.join(rt, sender);
    }
    closed
}

/// Both ends of a channel, handed back: what was taken of each lane is the start of what the lane was told was
/// accepted, and all of it once the receiver answered Closed; and all that the channel accepted has one order, in which
/// times rise and no more wait than the channel has room for. It costs nothing when it runs.
pub fn settle<M: FromSender>(receiver: ChannelReceiver<M>, closed: ChannelClosed<M>)
    requires channel { receiver.channel ≡ closed.channel }
    requires lanes { length closed.sent ≡ receiver.lanes }
    ensures prefix { TookSome M.sender (taken receiver) closed.sent }
    ensures all { receiver.gone ≡ Some Gone.Closed → TookAll M.sender (taken receiver) closed.sent }
    ensures passed { HasPassedThrough M.sender receiver closed.sent closed.sent_at }
{
    let ChannelClosed {
        end,
        mut pass,
        is_lost: _,
    } = closed;
    let ChannelReceiver {
        end: _from,
        pass: other,
        lanes: _,
        marks: _,
        gone: _,
    } = receiver;
    end.absorb::<Settles>(&mut pass, other);
    end.learn_as::<Settles>(&mut pass);
}
