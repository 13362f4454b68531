//! The form of a mailbox, checked as its bytes come, and the first NUL among them.
ghost use Rattle.std.specs.Prelude.{◌≡◌, ◌+◌, ◌-◌, ◌<◌, ◌≤◌, ℕ, List, [], ◌∷◌, Ok, Err, length, take, IfOk, IfErr, OnOk};
ghost use Rattle.mail_world.specs.Counts.{counted};
ghost use Rattle.mbox_check.specs.Form.{IsFound};
ghost use Rattle.mbox_check.specs.States.{bad_at, nul_after};
ghost use Rattle.mbox_check.specs.SoFar.{IsFree, IsReadSoFar, ReadsOn, BreaksIn};

use crate::fault::BadForm;
use crate::found::{Found, NulAt};
use crate::state::{Effect, FormState, Part, effect_at, is_whole};
use memchr::memchr2;

/// How far the bytes that came have the form of a mailbox.
#[derive(Clone, Copy)]
pub(crate) struct FormCheck {
    // How many letters have begun, and how many bytes were taken; both stay at 2^64 - 1.
    letters: u64,
    taken: u64,
    // Where the last of these letters began, 0 before there is one; it stays at 2^64 - 5.
    start: u64,
    state: FormState,
    // The first NUL that was taken.
    nul: Option<NulAt>,
}

impl FormCheck {
    pub(crate) fn new() -> FormCheck
        ensures { IsReadSoFar [] result }
    {
        FormCheck {
            letters: 0,
            taken: 0,
            start: 0,
            state: FormState::Start(Part::Nothing),
            nul: None,
        }
    }

    /// Takes the bytes that come next. After an error, which is what is found of the text, it is of no use.
    pub(crate) fn piece(&mut self, piece: &[u8]) -> Result<(), Found>
        ensures ok { OnOk result (ReadsOn self.old self.new piece.now) }
        ensures err { IfErr result (λ found. BreaksIn self.old piece.now found) }
    {
        let mut rest = piece;
        while !rest.is_empty() {
            let size = self.turn(rest)?;
            rest = &rest[size..];
        }
        Ok(())
    }

    /// Ends the text: says what is found of it.
    pub(crate) fn end(&self) -> Found
        ensures { (text : List ℕ) → IsReadSoFar text self.now → IsFound text result }
    {
        if is_whole(self.state) {
            Found {
                letters: Ok(self.letters),
                nul: self.nul,
            }
        } else {
            self.broken()
        }
    }

    // Takes bytes at the beginning of the text, one at least, and says how many.
    fn turn(&mut self, text: &[u8]) -> Result<usize, Found>
        requires { 0 < length text.now }
        ensures within { IfOk result (λ n. (1 ≤ n) × (n ≤ length text.now)) }
        ensures ok { IfOk result (λ n. ReadsOn self.old self.new (take n text.now)) }
        ensures err { IfErr result (λ found. BreaksIn self.old text.now found) }
    {
        let size = self.free_size(text);
        if size == 0 {
            self.byte(text[0])?;
            return Ok(1);
        }
        self.go(FormState::Inside, size);
        Ok(size)
    }

    // How many bytes at the beginning of the text are of a line of which the rest is free, and neither its LF nor NUL.
    fn free_size(&self, text: &[u8]) -> usize
        ensures within { result ≤ length text.now }
        ensures free { 0 < result → IsFree self.now.state (take result text.now) }
    {
        match self.state {
            FormState::Inside => match memchr2(b'\n', b'\0', text) {
                Some(at) => at,
                None => text.len(),
            },
            FormState::Start(_) | FormState::Open(_) | FormState::Line(_) => 0,
        }
    }

    fn byte(&mut self, byte: u8) -> Result<(), Found>
        ensures ok { OnOk result (ReadsOn self.old self.new (byte ∷ [])) }
        ensures err { IfErr result (λ found. BreaksIn self.old (byte ∷ []) found) }
    {
        match effect_at(self.state, byte) {
            Effect::To(state) => {
                self.note(byte);
                self.go(state, 1);
                Ok(())
            }
            Effect::Begin => {
                self.begin();
                Ok(())
            }
            Effect::Break => Err(self.broken()),
        }
    }

    // Notes where the byte that comes next stands, if it is the first NUL.
    fn note(&mut self, byte: u8)
        ensures { self.new ≡ record self.old {
          nul = nul_after self.old.nul byte
              (record { place = self.old.taken; letter = self.old.letters; start = self.old.start });
        } }
    {
        if byte == b'\0' && self.nul.is_none() {
            self.nul = Some(NulAt {
                place: self.taken,
                letter: self.letters,
                start: self.start,
            });
        }
    }

    // That many bytes lead to the state.
    fn go(&mut self, state: FormState, size: usize)
        ensures { self.new ≡ record self.old { state = state; taken = counted (self.old.taken + size) } }
    {
        self.state = state;
        self.taken = self.taken.saturating_add(size as u64);
    }

    // A byte begins a letter: the fifth one of its From line.
    fn begin(&mut self)
        ensures { self.new ≡ record self.old {
          letters = counted (self.old.letters + 1);
          start = self.old.taken - 4;
          state = FormState.Inside;
          taken = counted (self.old.taken + 1);
        } }
    {
        self.letters = self.letters.saturating_add(1);
        self.start = self.taken.saturating_sub(4);
        self.go(FormState::Inside, 1);
    }

    // What is found where the text ends or breaks here.
    fn broken(&self) -> Found
        ensures { result ≡ record {
          letters = Err (bad_at self.now.state self.now.taken self.now.letters self.now.start);
          nul = self.now.nul;
        } }
    {
        Found {
            letters: Err(self.bad()),
            nul: self.nul,
        }
    }

    // What is wrong where the text ends or breaks here.
    fn bad(&self) -> BadForm
        ensures { result ≡ bad_at self.now.state self.now.taken self.now.letters self.now.start }
    {
        match self.state {
            FormState::Start(_) => BadForm::NoFromLine { place: self.taken },
            FormState::Open(_) | FormState::Line(_) | FormState::Inside => BadForm::NoEmptyLine {
                place: self.taken,
                letter: self.letters,
                start: self.start,
            },
        }
    }
}
