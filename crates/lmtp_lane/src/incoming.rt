//! A message on its way into the depot.

ghost use Rattle.std.specs.Prelude.{◌≡◌, ◌≤◌, ◌<◌, ◌+◌, ◌++◌, ℕ, List, [], length, take, Bool};
ghost use Rattle.std.specs.Prelude.{None, Some, IfOk, IfErr, IfSome, option_map};
ghost use Rattle.mail_world.specs.declared.limits.TheConstants.{NUMBER_LIMIT, DATA_BUFFER_SIZE};
ghost use Rattle.mail_world.specs.declared.Verdict.TheVariants.{Whole};
ghost use Rattle.mail_head.specs.MessageIds.{message_id_of};
ghost use Rattle.mail_head.specs.Texts.{text_of};
ghost use Rattle.lmtp_talk.specs.Delivery.{Takes};
ghost use Rattle.lmtp_lane.specs.LaneAccount.{HoldsDraft, IsComing, PutsOn, FormsOn, IsKnownForm, verdict_on};
ghost use Rattle.lmtp_lane.specs.LaneAccount.{says_malformed};

use lmtp_wire::{Dot, Fed};
use mail_form::MessageForm;
use mail_head::{MessageId, message_id_of};
use mail_world::Verdict;
use mail_world::limits::{DATA_BUFFER_SIZE, NUMBER_LIMIT};
use mbox_record::LengthCounter;
use msg_depot::{Depot, DepotName, Draft};
use std::marker::Model;
use std::mem;
use std::sync::Wait;

/// One byte more than the depot is given at once: so a dot always has two free places, and takes a byte at least.
const ROOM_SIZE: usize = DATA_BUFFER_SIZE + 1;

/// A draft, and how long the text of what is in it is in a record so far. Contracts see the draft alone.
#[derive(Drop)]
pub struct CountedDraft<N: DepotName> {
    pub draft: Draft<N>,
    pub counter: LengthCounter,
}

impl<N: DepotName> Model for CountedDraft<N> {
    ghost use Rattle.mbox_record.specs.Lengths.{HasCounted};
    ghost use Rattle.msg_depot.specs.declared.view.Claim.{Claim};

    ghost Value = { Claim };

    ghost view = { λ d. d.draft };

    ghost invariant = { λ d. HasCounted d.counter d.draft.bytes };
}

/// The draft of a message, what waits to be put into it, how long the message is so far, its Message-ID, and what is
/// known of its form. There is no draft once room was lacking or the message was too large; the bytes go through the
/// room then, and into nothing.
#[derive(Drop)]
pub struct Incoming<N: DepotName> {
    pub draft: Option<CountedDraft<N>>,
    pub room: [u8; ROOM_SIZE],
    /// How many bytes wait, which stand first in the room.
    pub held: usize,
    pub size: usize,
    /// The Message-ID, once the first room was handed on.
    pub message_id: Option<MessageId>,
    /// The form of what was handed on, where malformed messages are refused.
    pub form: Option<MessageForm>,
    ghost few: { held < DATA_BUFFER_SIZE },
}

impl<N: DepotName> Incoming<N> {
    /// No message.
    pub fn new() -> Incoming<N> {
        Incoming {
            draft: None,
            room: [0; ROOM_SIZE],
            held: 0,
            size: 0,
            message_id: None,
            form: None,
        }
    }

    /// Begins a message, which is looked at as it comes where malformed ones are refused.
    pub fn begin<R: Wait>(&mut self, rt: &R, depot: &Depot<N>, refuses: bool)
        ensures { IsComing refuses self.new.draft (take self.new.held self.new.room) self.new.size
            (option_map text_of self.new.message_id) self.new.form [] }
    {
        self.cancel(rt, depot);
        self.held = 0;
        self.size = 0;
        self.form = form_at_start(refuses);
        self.draft = begin(rt, depot);
    }

    /// Takes bytes of the data, whose message may have as many bytes in all as the limit says.
    pub fn take<R: Wait>(
        &mut self,
        rt: &R,
        depot: &Depot<N>,
        dot: &mut Dot,
        bytes: &[u8],
        limit: u32,
    ) -> Fed
        requires { 0 < length bytes.now }
        ensures used { (0 < result.used) × (result.used ≤ length bytes.now) }
        ensures takes { (refuses : Bool) → Takes
            (λ n ts message. IsComing refuses self.old.draft (take self.old.held self.old.room) self.old.size
            (option_map text_of self.old.message_id) self.old.form message)
            (λ n ts message. IsComing refuses self.new.draft (take self.new.held self.new.room) self.new.size
            (option_map text_of self.new.message_id) self.new.form message)
            dot.old dot.new bytes.now result }
    {
        let fed = dot.feed(bytes, &mut self.room[self.held..]);
        let held = self.held + fed.made;
        self.count(rt, depot, fed.made, limit);
        self.hand_on(rt, depot, held);
        fed
    }

    // Counts bytes that have come. There is no draft once they are more than the limit says.
    fn count<R: Wait>(&mut self, rt: &R, depot: &Depot<N>, made: usize, limit: u32)
        ensures room { self.new.room ≡ self.old.room }
        ensures comes { (refuses : Bool) (waiting text message : List ℕ) → length text ≡ made
            → IsComing refuses self.old.draft waiting self.old.size (option_map text_of self.old.message_id) self.old.form message
            → IsComing refuses self.new.draft (waiting ++ text) self.new.size (option_map text_of self.new.message_id) self.new.form
            (message ++ text) }
    {
        self.size = self.size.saturating_add(made);
        if self.size <= limit as usize {
            return;
        }
        self.cancel(rt, depot);
    }

    // That many bytes wait now. Once the room is full it is put into the draft, and a byte past it waits on.
    fn hand_on<R: Wait>(&mut self, rt: &R, depot: &Depot<N>, held: usize)
        requires { held ≤ DATA_BUFFER_SIZE + 1 }
        ensures { (refuses : Bool) (message : List ℕ)
            → IsComing refuses self.old.draft (take held self.old.room) self.old.size
            (option_map text_of self.old.message_id) self.old.form message
            → IsComing refuses self.new.draft (take self.new.held self.new.room) self.new.size
            (option_map text_of self.new.message_id) self.new.form message }
    {
        if held < DATA_BUFFER_SIZE {
            self.held = held;
            return;
        }
        self.message_id = self.message_id_at(held);
        self.form = form_with(self.form, &self.room[..DATA_BUFFER_SIZE]);
        let draft = self.draft.take();
        self.draft = put(rt, depot, draft, &self.room[..DATA_BUFFER_SIZE]);
        self.room.copy_within(DATA_BUFFER_SIZE..held, 0);
        self.held = held - DATA_BUFFER_SIZE;
    }

    /// The Message-ID of the message, as far as it has come.
    pub fn message_id(&self) -> Option<MessageId>
        ensures { (refuses : Bool) (message : List ℕ)
            → IsComing refuses self.now.draft (take self.now.held self.now.room) self.now.size
            (option_map text_of self.now.message_id) self.now.form message
            → option_map text_of result ≡ message_id_of message }
    {
        self.message_id_at(self.held)
    }

    // The same where that many bytes wait: they are all of the message, or it was seen before.
    fn message_id_at(&self, held: usize) -> Option<MessageId>
        requires { held ≤ DATA_BUFFER_SIZE + 1 }
        ensures { (refuses : Bool) (message : List ℕ)
            → IsComing refuses self.now.draft (take held self.now.room) self.now.size
            (option_map text_of self.now.message_id) self.now.form message
            → option_map text_of result ≡ message_id_of message }
    {
        if self.size == held {
            return message_id_of(&self.room[..held]);
        }
        self.message_id
    }

    /// Puts what waits into the draft, once the data has ended.
    pub fn hand_on_rest<R: Wait>(&mut self, rt: &R, depot: &Depot<N>)
        ensures { (refuses : Bool) (message : List ℕ)
            → IsComing refuses self.old.draft (take self.old.held self.old.room) self.old.size
            (option_map text_of self.old.message_id) self.old.form message
            → HoldsDraft refuses self.new.draft self.new.size self.new.form message }
    {
        let held = mem::take(&mut self.held);
        if held == 0 {
            return;
        }
        self.form = form_with(self.form, &self.room[..held]);
        let draft = self.draft.take();
        self.draft = put(rt, depot, draft, &self.room[..held]);
    }

    /// Gives the blocks of the draft back.
    pub fn cancel<R: Wait>(&mut self, rt: &R, depot: &Depot<N>)
        ensures draft { self.new.draft ≡ None }
        ensures room { self.new.room ≡ self.old.room }
        ensures size { self.new.size ≡ self.old.size }
        ensures message_id { self.new.message_id ≡ self.old.message_id }
        ensures form { self.new.form ≡ self.old.form }
    {
        if let Some(counted) = self.draft.take() {
            depot.cancel(rt, counted.draft);
        }
    }

    /// The draft of a message that is whole, or why the message is refused, whose blocks are given back; it may have
    /// as many bytes as the limit says.
    pub fn end<R: Wait>(
        &mut self,
        rt: &R,
        depot: &Depot<N>,
        number: u64,
        limit: u32,
    ) -> Result<CountedDraft<N>, Verdict>
        ensures whole { IfOk result (λ draft. (self.old.draft ≡ Some draft)
            × (Whole ≡ verdict_on limit number self.old.size (says_malformed self.old.form) self.old.draft)) }
        ensures number { IfOk result (λ _. number ≤ NUMBER_LIMIT) }
        ensures refused { IfErr result (λ verdict. verdict ≡ verdict_on limit number self.old.size (says_malformed self.old.form) self.old.draft) }
        ensures other { IfErr result (λ verdict. verdict ≡ Whole → ⊥) }
    {
        if number > NUMBER_LIMIT as u64 {
            self.cancel(rt, depot);
            return Err(Verdict::NoRoom);
        }
        if self.size > limit as usize {
            self.cancel(rt, depot);
            return Err(Verdict::TooLarge);
        }
        if says_malformed(self.form) {
            self.cancel(rt, depot);
            return Err(Verdict::Malformed);
        }
        match self.draft.take() {
            Some(draft) => Ok(draft),
            None => Err(Verdict::NoRoom),
        }
    }
}

// What is known of a message's form before it has come, where malformed ones are refused.
fn form_at_start(refuses: bool) -> Option<MessageForm>
    ensures { IsKnownForm refuses result [] }
{
    if refuses {
        Some(MessageForm::new())
    } else {
        None
    }
}

// And once these bytes have come too.
fn form_with(form: Option<MessageForm>, bytes: &[u8]) -> Option<MessageForm>
    ensures { FormsOn form result bytes.now }
{
    match form {
        Some(form) => Some(form.with(bytes)),
        None => None,
    }
}

// Whether the message that has come so is refused as malformed.
fn says_malformed(form: Option<MessageForm>) -> bool
    ensures { result ≡ says_malformed form }
{
    match form {
        Some(form) => form.is_malformed(),
        None => false,
    }
}

// An empty draft, if there is room for one.
fn begin<N: DepotName, R: Wait>(rt: &R, depot: &Depot<N>) -> Option<CountedDraft<N>>
    ensures { IfSome result (λ draft. draft.bytes ≡ []) }
{
    let draft = depot.draft(rt).ok()?;
    Some(CountedDraft {
        draft,
        counter: LengthCounter::new(),
    })
}

// Adds bytes to a draft, if there is one, and counts them. Where there is no room for them it is cancelled.
fn put<N: DepotName, R: Wait>(
    rt: &R,
    depot: &Depot<N>,
    draft: Option<CountedDraft<N>>,
    bytes: &[u8],
) -> Option<CountedDraft<N>>
    ensures { PutsOn draft result bytes.now }
{
    let CountedDraft { mut draft, counter } = draft?;
    match depot.put(rt, &mut draft, bytes) {
        Ok(()) => Some(CountedDraft {
            draft,
            counter: counter.add(bytes),
        }),
        Err(_) => {
            depot.cancel(rt, draft);
            None
        }
    }
}
