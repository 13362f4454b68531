//! The data of a message, taken piece by piece, without the dots of transparency (RFC 5321, 4.5.2).

ghost use Rattle.std.specs.Prelude.{◌≡◌, ℕ, ◌+◌, ◌<◌, ◌≤◌, Bool, true, List, [], ◌∷◌, ◌++◌, length, take, drop};
ghost use Rattle.mail_world.specs.Text.{cr};
ghost use Rattle.lmtp_wire.specs.DataState.{in_doubt, is_start, state_next, state_after, is_undotted, effect_of};
ghost use Rattle.lmtp_wire.specs.Dot.{HasMade, Feeds, PutsAfter, MayTake, TakesOn, owed_bytes};

use memchr::memchr;

const CR: u8 = b'\r';

const LF: u8 = b'\n';

const DOT: u8 = b'.';

/// What a call of `Dot::feed` did.
#[derive(Clone, Copy, PartialEq, Eq)]
pub struct Fed {
    /// How many bytes of the piece were taken.
    pub used: usize,
    /// How many bytes of the message were made.
    pub made: usize,
    /// Whether the data has ended.
    pub ended: bool,
}

/// How much of the end of data came last.
#[derive(Clone, Copy, PartialEq, Eq)]
enum DataState {
    /// Nothing of it.
    InText,
    /// CR.
    AfterCr,
    /// CRLF, which also stands before the first byte.
    LineStart,
    /// CRLF and a dot, which was dropped.
    AfterDot,
    /// CRLF, a dot and a CR, which is held back.
    AfterDotCr,
}

/// What a byte adds to the message, and where it leaves the data.
#[derive(Clone, Copy, PartialEq, Eq)]
enum Effect {
    Nothing(DataState),
    /// The byte itself.
    Byte(DataState),
    /// The CR that was held back, and the byte.
    HeldCr(DataState),
    /// Nothing: the data has ended.
    End,
}

/// Where the bytes of data stand: how much of the end of data came last, and a byte that had no room.
#[derive(Drop)]
pub struct Dot {
    state: DataState,
    owed: Option<u8>,
}

impl Dot {
    /// Before the first byte of data.
    pub fn new() -> Dot
        ensures { HasMade result [] [] }
    {
        Dot {
            state: DataState::LineStart,
            owed: None,
        }
    }

    /// Takes a prefix of the piece and puts what it has of the message into `out`, until the piece is used up, `out` is
    /// full or the data has ended. Nothing after the end of data is taken. It isn't fed again once the data has ended.
    pub fn feed(&mut self, piece: &[u8], out: &mut [u8]) -> Fed
        requires { 0 < length out.old }
        ensures used { result.used ≤ length piece.now }
        ensures moves { 1 ≤ length piece.now → 2 ≤ length out.old → 1 ≤ result.used }
        ensures made { result.made ≤ length out.new }
        ensures rest { drop result.made out.new ≡ drop result.made out.old }
        ensures feeds { (taken made : List ℕ) → HasMade self.old taken made
            → Feeds self.new (taken ++ take result.used piece.now) (made ++ take result.made out.new) (length piece.now)
            (length out.new) result }
    {
        let mut fed = Fed {
            used: 0,
            made: self.pay(out),
            ended: false,
        };
        while !fed.ended && fed.used < piece.len() && fed.made < out.len() {
            fed = self.turn(piece, out, fed);
        }
        fed
    }

    // Puts the byte that had no room, if there is one, and counts it.
    fn pay(&mut self, out: &mut [u8]) -> usize
        requires { 0 < length out.old }
        ensures few { result ≤ 1 }
        ensures paid { self.new.owed ≡ None }
        ensures puts { PutsAfter self.old self.new out.old out.new 0 result (owed_bytes self.old.owed) }
    {
        match self.owed {
            None => 0,
            Some(byte) => {
                out[0] = byte;
                self.owed = None;
                1
            }
        }
    }

    // Takes a run of content, or one byte.
    fn turn(&mut self, piece: &[u8], out: &mut [u8], fed: Fed) -> Fed
        requires { MayTake self.old piece.now out.old fed }
        ensures { TakesOn self.old self.new piece.now out.old out.new fed result }
    {
        match self.state {
            DataState::InText | DataState::AfterCr | DataState::LineStart => self.take_run(
                piece, out, fed,
            ),
            DataState::AfterDot | DataState::AfterDotCr => self.take_byte(piece, out, fed),
        }
    }

    // Takes all up to the next dot that a line starts with, as far as there is room, or that dot. No more is searched
    // than there is room for, so that nothing is searched twice.
    fn take_run(&mut self, piece: &[u8], out: &mut [u8], fed: Fed) -> Fed
        requires may { MayTake self.old piece.now out.old fed }
        requires state { in_doubt self.old.state ≡ [] }
        ensures { TakesOn self.old self.new piece.now out.old out.new fed result }
    {
        let room = (piece.len() - fed.used).min(out.len() - fed.made);
        let ahead = &piece[fed.used..fed.used + room];
        let run = content_len(self.state, ahead);
        if run == 0 {
            return self.take_byte(piece, out, fed);
        }
        let made = fed.made + run;
        self.state = state_after(self.state, &ahead[..run]);
        out[fed.made..made].copy_from_slice(&ahead[..run]);
        Fed {
            used: fed.used + run,
            made,
            ended: false,
        }
    }

    fn take_byte(&mut self, piece: &[u8], out: &mut [u8], fed: Fed) -> Fed
        requires { MayTake self.old piece.now out.old fed }
        ensures { TakesOn self.old self.new piece.now out.old out.new fed result }
    {
        let byte = piece[fed.used];
        let used = fed.used + 1;
        match step(self.state, byte) {
            Effect::Nothing(state) => {
                self.state = state;
                Fed {
                    used,
                    made: fed.made,
                    ended: false,
                }
            }
            Effect::Byte(state) => {
                self.state = state;
                out[fed.made] = byte;
                Fed {
                    used,
                    made: fed.made + 1,
                    ended: false,
                }
            }
            Effect::HeldCr(state) => {
                self.state = state;
                let made = self.release(byte, out, fed.made);
                Fed {
                    used,
                    made,
                    ended: false,
                }
            }
            Effect::End => Fed {
                used,
                made: fed.made,
                ended: true,
            },
        }
    }

    // Puts the CR that was held back, and the byte if there is room for it.
    fn release(&mut self, byte: u8, out: &mut [u8], made: usize) -> usize
        requires out { made < length out.old }
        requires paid { self.old.owed ≡ None }
        ensures { PutsAfter self.old self.new out.old out.new made result (cr ∷ byte ∷ []) }
    {
        out[made] = CR;
        if made + 1 < out.len() {
            out[made + 1] = byte;
            return made + 2;
        }
        self.owed = Some(byte);
        made + 1
    }
}

// How many bytes of a text are content as they stand: all before the first dot that a line starts with.
fn content_len(state: DataState, text: &[u8]) -> usize
    ensures within { result ≤ length text.now }
    ensures content { is_undotted state (take result text.now) ≡ true }
{
    let mut seen = 0;
    while let Some(n) = memchr(DOT, &text[seen..]) {
        let dot = seen + n;
        if is_start(state_after(state, &text[..dot])) {
            return dot;
        }
        seen = dot + 1;
    }
    text.len()
}

// Where data stands after a run of content, which its last two bytes tell.
fn state_after(state: DataState, run: &[u8]) -> DataState
    ensures { result ≡ state_after state run.now }
{
    match run {
        [] => state,
        [byte] => state_next(state, *byte),
        [.., before, byte] => state_next(state_next(DataState::InText, *before), *byte),
    }
}

// Whether a line starts there.
fn is_start(state: DataState) -> bool
    ensures { result ≡ is_start state }
{
    matches!(state, DataState::LineStart)
}

// What a byte makes of the message, and where it leaves the data.
fn step(state: DataState, byte: u8) -> Effect
    ensures { result ≡ effect_of state byte }
{
    match state {
        DataState::InText | DataState::AfterCr => Effect::Byte(state_next(state, byte)),
        DataState::LineStart => match byte {
            DOT => Effect::Nothing(DataState::AfterDot),
            _ => Effect::Byte(state_next(state, byte)),
        },
        DataState::AfterDot => match byte {
            CR => Effect::Nothing(DataState::AfterDotCr),
            _ => Effect::Byte(state_next(state, byte)),
        },
        DataState::AfterDotCr => match byte {
            LF => Effect::End,
            _ => Effect::HeldCr(state_next(state, byte)),
        },
    }
}

// Where data stands after a byte of content.
fn state_next(state: DataState, byte: u8) -> DataState
    ensures { result ≡ state_next state byte }
{
    match byte {
        CR => DataState::AfterCr,
        LF => match state {
            DataState::AfterCr | DataState::AfterDotCr => DataState::LineStart,
            DataState::InText | DataState::LineStart | DataState::AfterDot => DataState::InText,
        },
        _ => DataState::InText,
    }
}
