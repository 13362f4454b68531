//! Which steps the house may take, and which have no result.

ghost use Rattle.std.specs.Prelude.{◌≡◌, ◌≢◌, ℕ, ◌+◌, ◌<◌, ◌≤◌, true, false, List, ◌++◌, length, drop, Some, None};
ghost use Rattle.std.specs.Prelude.{slice_get};
ghost use Rattle.mail_world.specs.declared.Note.{Note};
ghost use Rattle.mail_world.specs.declared.Event.TheVariants.{Begin, Put, Cancel, Seal, Split, Offer, HandBack};
ghost use Rattle.mail_world.specs.declared.Event.TheVariants.{Collect, Take, Lock, Miss, Write, Sync, Cut};
ghost use Rattle.mail_world.specs.declared.Event.TheVariants.{Unlock, Release, GiveSlip, Reclaim};
ghost use Rattle.mail_world.specs.declared.Event.TheVariants.{Close};
ghost use Rattle.mail_world.specs.declared.Outcome.{Outcome};
ghost use Rattle.mail_world.specs.Turns.{Standing};
ghost use Rattle.mail_world.specs.Depot.{Key, Slot, Free, Sealed, Retired, HasRoom, held_under, spent};
ghost use Rattle.mail_world.specs.Depot as depot;
ghost use Rattle.mail_world.specs.House.{House, Box, Lane, Taken, Going, Done, Copy, Hold, SealedMessage};
ghost use Rattle.mail_world.specs.House.{is_taken, is_going, is_done};
ghost use Rattle.mail_world.specs.Events.{Step, MayHappen, HasCopy, BoxIs, LaneIs, sealed_up_to, outcome_of};
ghost use Rattle.mail_world.specs.Events.{added, TurnEnd, end_of};
ghost use Rattle.mail_world.specs.Runs.{InEveryRun};

/// A lane that has a draft may add bytes to it where enough blocks are free, seal it and drop it, a hold of weight 1
/// may be released, and what became of a copy may be told: in each house of each run, the depot and the lanes are as
/// such a step needs them.
pub fn steps_of_holders_may_happen()
    ensures put { InEveryRun
        (λ blocks events h. (k : ℕ) (bytes : List ℕ) (lane : Lane) (key : Key) → LaneIs h k lane → lane.draft ≡ Some key
        → HasRoom h.depot key bytes → MayHappen h (Put k bytes)) }
    ensures cancel { InEveryRun
        (λ blocks events h. (k : ℕ) (lane : Lane) (key : Key) → LaneIs h k lane → lane.draft ≡ Some key
        → MayHappen h (Cancel k)) }
    ensures seal { InEveryRun
        (λ blocks events h. (k n : ℕ) (lane : Lane) (key : Key) → LaneIs h k lane → lane.draft ≡ Some key → 1 ≤ n
        → MayHappen h (Seal k n)) }
    ensures release { InEveryRun
        (λ blocks events h. (w : ℕ) (box : Box) (copy : Copy) (outcome : Outcome) → BoxIs h w box
        → box.hand ≡ Some copy → copy.progress ≡ Done outcome → copy.released ≡ false → MayHappen h (Release w)) }
    ensures unlock { InEveryRun
        (λ blocks events h. (w : ℕ) (box : Box) (copy : Copy) (end : TurnEnd) → BoxIs h w box → box.hand ≡ Some copy
        → end_of copy.progress ≡ Some end → MayHappen h (Unlock w)) }
    ensures give_slip { InEveryRun
        (λ blocks events h. (w : ℕ) (box : Box) (copy : Copy) → BoxIs h w box → box.hand ≡ Some copy
        → copy.released ≡ true → MayHappen h (GiveSlip w (outcome_of copy))) }
    ensures hand_back { InEveryRun
        (λ blocks events h. (k i m : ℕ) (lane : Lane) (hold : Hold) → LaneIs h k lane
        → slice_get lane.holds i ≡ Some hold → hold.weight ≡ 1 → MayHappen h (HandBack k i m)) }
{}

/// The other steps may happen in any house that is as the event needs it.
pub fn other_steps_may_happen()
    ensures begin { (h : House) (k i : ℕ) (lane : Lane) (slot : Slot) → LaneIs h k lane → lane.draft ≡ None
        → slice_get h.depot.slots i ≡ Some slot → slot.held ≡ Free → MayHappen h (Begin k) }
    ensures split { (h : House) (k i : ℕ) (lane : Lane) (hold : Hold) → LaneIs h k lane
        → slice_get lane.holds i ≡ Some hold → 1 < hold.weight → MayHappen h (Split k i) }
    ensures offer { (h : House) (k i t : ℕ) (key : Key) (note : Note) (lane : Lane) (box : Box) → LaneIs h k lane
        → HasCopy lane i t (sealed_up_to key note.txn.number note.message note.place) → note.txn.lane ≡ k
        → BoxIs h note.mailbox box → box.closed ≡ false → length box.accepted < box.taken + h.capacity
        → MayHappen h (Offer k note) }
    ensures collect { (h : House) (k : ℕ) (lane : Lane) → LaneIs h k lane → lane.collected < length lane.slips
        → MayHappen h (Collect k) }
    ensures take { (h : House) (w : ℕ) (box : Box) → BoxIs h w box → box.hand ≡ None → box.taken < length box.accepted
        → MayHappen h (Take w) }
    ensures lock { (h : House) (w : ℕ) (bytes : List ℕ) (box : Box) (copy : Copy) → BoxIs h w box
        → box.hand ≡ Some copy → copy.progress ≡ Taken → MayHappen h (Lock w bytes) }
    ensures miss { (h : House) (w : ℕ) (box : Box) (copy : Copy) → BoxIs h w box → box.hand ≡ Some copy
        → copy.progress ≡ Taken → MayHappen h (Miss w) }
    ensures write { (h : House) (w : ℕ) (bytes more : List ℕ) (box : Box) (copy : Copy) (at : Standing) (written : ℕ)
        → BoxIs h w box → box.hand ≡ Some copy → copy.progress ≡ Going at written
        → drop written (added h copy.post.note at.bytes) ≡ bytes ++ more → MayHappen h (Write w bytes) }
    ensures sync { (h : House) (w : ℕ) (box : Box) (copy : Copy) (at : Standing) (written : ℕ) → BoxIs h w box
        → box.hand ≡ Some copy → copy.progress ≡ Going at written
        → written ≡ length (added h copy.post.note at.bytes) → MayHappen h (Sync w) }
    ensures cut { (h : House) (w : ℕ) (box : Box) (copy : Copy) (at : Standing) (written : ℕ) → BoxIs h w box
        → box.hand ≡ Some copy → copy.progress ≡ Going at written → MayHappen h (Cut w) }
    ensures reclaim { (h : House) (key : Key) (bytes blocks : List ℕ) → held_under h.depot key ≡ spent bytes blocks
        → MayHappen h (Reclaim key.slot key.generation) }
    ensures close { (h : House) (b : ℕ) (box : Box) → BoxIs h b box → box.closed ≡ false → MayHappen h (Close b) }
{}

/// Steps of a lane that have no result, in any house.
pub fn wrong_steps_of_lanes_have_no_result()
    ensures begin_with_draft { (h new : House) (k : ℕ) (lane : Lane) (key : Key) → LaneIs h k lane
        → lane.draft ≡ Some key → Step h (Begin k) new → ⊥ }
    ensures begin_without_slot { (h new : House) (k : ℕ)
        → ((i : ℕ) (slot : Slot) → slice_get h.depot.slots i ≡ Some slot → slot.held ≢ Free) → Step h (Begin k) new
        → ⊥ }
    ensures put_without_draft { (h new : House) (k : ℕ) (bytes : List ℕ) (lane : Lane) → LaneIs h k lane
        → lane.draft ≡ None → Step h (Put k bytes) new → ⊥ }
    ensures put_without_room { (h new : House) (k : ℕ) (bytes : List ℕ) (lane : Lane) (key : Key) → LaneIs h k lane
        → lane.draft ≡ Some key → (HasRoom h.depot key bytes → ⊥) → Step h (Put k bytes) new → ⊥ }
    ensures cancel_without_draft { (h new : House) (k : ℕ) (lane : Lane) → LaneIs h k lane → lane.draft ≡ None
        → Step h (Cancel k) new → ⊥ }
    ensures seal_without_draft { (h new : House) (k n : ℕ) (lane : Lane) → LaneIs h k lane → lane.draft ≡ None
        → Step h (Seal k n) new → ⊥ }
    ensures seal_for_none { (h new : House) (k : ℕ) → Step h (Seal k 0) new → ⊥ }
    ensures split_of_one { (h new : House) (k i : ℕ) (lane : Lane) (hold : Hold) → LaneIs h k lane
        → slice_get lane.holds i ≡ Some hold → hold.weight ≤ 1 → Step h (Split k i) new → ⊥ }
    ensures split_of_nothing { (h new : House) (k i : ℕ) (lane : Lane) → LaneIs h k lane
        → slice_get lane.holds i ≡ None → Step h (Split k i) new → ⊥ }
    ensures offer_without_hold { (h new : House) (k : ℕ) (note : Note) (lane : Lane) → LaneIs h k lane
        → ((i : ℕ) (hold : Hold) → slice_get lane.holds i ≡ Some hold → hold.weight ≢ 1) → Step h (Offer k note) new
        → ⊥ }
    ensures offer_with_other_hold { (h new : House) (k : ℕ) (note : Note) (lane : Lane) → LaneIs h k lane
        → ((i t : ℕ) (hold : Hold) (x : SealedMessage) → slice_get lane.holds i ≡ Some hold
        → slice_get lane.messages t ≡ Some x → x.number ≡ note.txn.number → hold.key ≢ x.key)
        → Step h (Offer k note) new → ⊥ }
    ensures offer_of_other_bytes { (h new : House) (k : ℕ) (note : Note) (lane : Lane) → LaneIs h k lane
        → ((t : ℕ) (x : SealedMessage) → slice_get lane.messages t ≡ Some x → x.number ≡ note.txn.number
        → x.message ≢ note.message) → Step h (Offer k note) new → ⊥ }
    ensures offer_out_of_place { (h new : House) (k : ℕ) (note : Note) (lane : Lane) → LaneIs h k lane
        → ((t : ℕ) (x : SealedMessage) → slice_get lane.messages t ≡ Some x → x.number ≡ note.txn.number
        → x.offered ≢ note.place) → Step h (Offer k note) new → ⊥ }
    ensures offer_for_other_lane { (h new : House) (k : ℕ) (note : Note) → note.txn.lane ≢ k → Step h (Offer k note) new
        → ⊥ }
    ensures offer_when_closed { (h new : House) (k : ℕ) (note : Note) (box : Box) → BoxIs h note.mailbox box
        → box.closed ≡ true → Step h (Offer k note) new → ⊥ }
    ensures offer_when_full { (h new : House) (k : ℕ) (note : Note) (box : Box) → BoxIs h note.mailbox box
        → box.taken + h.capacity ≤ length box.accepted → Step h (Offer k note) new → ⊥ }
    ensures hand_back_without_hold { (h new : House) (k i b : ℕ) (lane : Lane) → LaneIs h k lane
        → ((hold : Hold) → slice_get lane.holds i ≡ Some hold → hold.weight ≢ 1) → Step h (HandBack k i b) new → ⊥ }
    ensures hand_back_with_other_hold { (h new : House) (k i b : ℕ) (lane : Lane) → LaneIs h k lane
        → ((t : ℕ) (hold : Hold) (x : SealedMessage) → slice_get lane.holds i ≡ Some hold
        → slice_get lane.messages t ≡ Some x → hold.key ≢ x.key) → Step h (HandBack k i b) new → ⊥ }
    ensures collect_of_none { (h new : House) (k : ℕ) (lane : Lane) → LaneIs h k lane
        → length lane.slips ≤ lane.collected → Step h (Collect k) new → ⊥ }
{}

/// Steps of a worker or of the house that have no result, in any house.
pub fn wrong_steps_of_workers_have_no_result()
    ensures take_with_copy { (h new : House) (w : ℕ) (box : Box) (copy : Copy) → BoxIs h w box → box.hand ≡ Some copy
        → Step h (Take w) new → ⊥ }
    ensures take_of_none { (h new : House) (w : ℕ) (box : Box) → BoxIs h w box → length box.accepted ≤ box.taken
        → Step h (Take w) new → ⊥ }
    ensures lock_unless_taken { (h new : House) (w : ℕ) (bytes : List ℕ) (box : Box) (copy : Copy) → BoxIs h w box
        → box.hand ≡ Some copy → is_taken copy.progress ≡ false → Step h (Lock w bytes) new → ⊥ }
    ensures miss_unless_taken { (h new : House) (w : ℕ) (box : Box) (copy : Copy) → BoxIs h w box
        → box.hand ≡ Some copy → is_taken copy.progress ≡ false → Step h (Miss w) new → ⊥ }
    ensures write_unless_going { (h new : House) (w : ℕ) (bytes : List ℕ) (box : Box) (copy : Copy) → BoxIs h w box
        → box.hand ≡ Some copy → is_going copy.progress ≡ false → Step h (Write w bytes) new → ⊥ }
    ensures sync_unless_going { (h new : House) (w : ℕ) (box : Box) (copy : Copy) → BoxIs h w box
        → box.hand ≡ Some copy → is_going copy.progress ≡ false → Step h (Sync w) new → ⊥ }
    ensures cut_unless_going { (h new : House) (w : ℕ) (box : Box) (copy : Copy) → BoxIs h w box
        → box.hand ≡ Some copy → is_going copy.progress ≡ false → Step h (Cut w) new → ⊥ }
    ensures unlock_out_of_turn { (h new : House) (w : ℕ) (box : Box) (copy : Copy) → BoxIs h w box
        → box.hand ≡ Some copy → end_of copy.progress ≡ None → Step h (Unlock w) new → ⊥ }
    ensures release_unless_done { (h new : House) (w : ℕ) (box : Box) (copy : Copy) → BoxIs h w box
        → box.hand ≡ Some copy → is_done copy.progress ≡ false → Step h (Release w) new → ⊥ }
    ensures write_of_other_bytes { (h new : House) (w : ℕ) (bytes : List ℕ) (box : Box) (copy : Copy) (lock : Standing)
        (written : ℕ) → BoxIs h w box → box.hand ≡ Some copy → copy.progress ≡ Going lock written
        → ((more : List ℕ) → drop written (added h copy.post.note lock.bytes) ≢ bytes ++ more)
        → Step h (Write w bytes) new → ⊥ }
    ensures sync_of_part { (h new : House) (w : ℕ) (box : Box) (copy : Copy) (lock : Standing) (written : ℕ)
        → BoxIs h w box → box.hand ≡ Some copy → copy.progress ≡ Going lock written
        → written ≢ length (added h copy.post.note lock.bytes) → Step h (Sync w) new → ⊥ }
    ensures release_without_copy { (h new : House) (w : ℕ) (box : Box) → BoxIs h w box → box.hand ≡ None
        → Step h (Release w) new → ⊥ }
    ensures release_twice { (h new : House) (w : ℕ) (box : Box) (copy : Copy) → BoxIs h w box → box.hand ≡ Some copy
        → copy.released ≡ true → Step h (Release w) new → ⊥ }
    ensures slip_without_copy { (h new : House) (w : ℕ) (outcome : Outcome) (box : Box) → BoxIs h w box
        → box.hand ≡ None → Step h (GiveSlip w outcome) new → ⊥ }
    ensures slip_before_release { (h new : House) (w : ℕ) (outcome : Outcome) (box : Box) (copy : Copy) → BoxIs h w box
        → box.hand ≡ Some copy → copy.released ≡ false → Step h (GiveSlip w outcome) new → ⊥ }
    ensures slip_that_lies { (h new : House) (w : ℕ) (outcome : Outcome) (box : Box) (copy : Copy) → BoxIs h w box
        → box.hand ≡ Some copy → outcome ≢ outcome_of copy
        → Step h (GiveSlip w outcome) new → ⊥ }
    ensures reclaim_of_held { (h new : House) (key : Key) (bytes blocks : List ℕ) (weight : ℕ)
        → held_under h.depot key ≡ Sealed bytes blocks weight → 0 < weight
        → Step h (Reclaim key.slot key.generation) new → ⊥ }
    ensures reclaim_of_draft { (h new : House) (key : Key) (bytes blocks : List ℕ)
        → held_under h.depot key ≡ depot.Draft bytes blocks → Step h (Reclaim key.slot key.generation) new → ⊥ }
    ensures reclaim_of_nothing { (h new : House) (key : Key) → held_under h.depot key ≡ Free
        → Step h (Reclaim key.slot key.generation) new → ⊥ }
    ensures reclaim_of_retired { (h new : House) (key : Key) → held_under h.depot key ≡ Retired
        → Step h (Reclaim key.slot key.generation) new → ⊥ }
    ensures close_twice { (h new : House) (b : ℕ) (box : Box) → BoxIs h b box → box.closed ≡ true → Step h (Close b) new
        → ⊥ }
{}
