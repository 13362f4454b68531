//! Where a reader of a mailbox stands between two bytes, and where a byte leads it.
ghost use Rattle.std.specs.Prelude.{◌≡◌};
ghost use Rattle.mbox_check.specs.States.{next_byte, longer_part, line_state, is_whole, effect_at};

/// What a line has begun with of `From `, where it has begun with nothing else.
#[derive(Clone, Copy)]
pub(crate) enum Part {
    Nothing,
    F,
    Fr,
    Fro,
    From,
}

/// Where a reader stands.
#[derive(Clone, Copy)]
pub(crate) enum FormState {
    /// In the first line, which has to be a From line.
    Start(Part),
    /// In a line after an empty one, which may be a From line.
    Open(Part),
    /// In a line after one that isn't empty, which may not be a From line.
    Line(Part),
    /// In a line of which the rest is free.
    Inside,
}

/// What comes of a byte.
#[derive(Clone, Copy)]
pub(crate) enum Effect {
    To(FormState),
    /// A letter begins: `From ` is whole.
    Begin,
    /// No mailbox goes on like this.
    Break,
}

fn next_byte(part: Part) -> u8
    ensures { result ≡ next_byte part }
{
    match part {
        Part::Nothing => b'F',
        Part::F => b'r',
        Part::Fr => b'o',
        Part::Fro => b'm',
        Part::From => b' ',
    }
}

// The part with its next byte, or `None` where that makes `From ` whole.
fn longer_part(part: Part) -> Option<Part>
    ensures { result ≡ longer_part part }
{
    match part {
        Part::Nothing => Some(Part::F),
        Part::F => Some(Part::Fr),
        Part::Fr => Some(Part::Fro),
        Part::Fro => Some(Part::From),
        Part::From => None,
    }
}

// Where a byte leads that doesn't go on with `From `.
fn line_state(part: Part, byte: u8) -> FormState
    ensures { result ≡ line_state part byte }
{
    if byte != b'\n' {
        return FormState::Inside;
    }
    match part {
        Part::Nothing => FormState::Open(Part::Nothing),
        Part::F | Part::Fr | Part::Fro | Part::From => FormState::Line(Part::Nothing),
    }
}

/// What comes of the byte in that state.
pub(crate) fn effect_at(state: FormState, byte: u8) -> Effect
    ensures { result ≡ effect_at state byte }
{
    match state {
        FormState::Start(part) => start_effect(part, byte),
        FormState::Open(part) => open_effect(part, byte),
        FormState::Line(part) => line_effect(part, byte),
        FormState::Inside => {
            if byte == b'\n' {
                Effect::To(FormState::Line(Part::Nothing))
            } else {
                Effect::To(FormState::Inside)
            }
        }
    }
}

fn start_effect(part: Part, byte: u8) -> Effect
    ensures { result ≡ effect_at (FormState.Start part) byte }
{
    if next_byte(part) != byte {
        return Effect::Break;
    }
    match longer_part(part) {
        Some(part) => Effect::To(FormState::Start(part)),
        None => Effect::Begin,
    }
}

fn open_effect(part: Part, byte: u8) -> Effect
    ensures { result ≡ effect_at (FormState.Open part) byte }
{
    if next_byte(part) != byte {
        return Effect::To(line_state(part, byte));
    }
    match longer_part(part) {
        Some(part) => Effect::To(FormState::Open(part)),
        None => Effect::Begin,
    }
}

fn line_effect(part: Part, byte: u8) -> Effect
    ensures { result ≡ effect_at (FormState.Line part) byte }
{
    if next_byte(part) != byte {
        return Effect::To(line_state(part, byte));
    }
    match longer_part(part) {
        Some(part) => Effect::To(FormState::Line(part)),
        None => Effect::Break,
    }
}

/// Whether a mailbox may end here.
pub(crate) fn is_whole(state: FormState) -> bool
    ensures { result ≡ is_whole state }
{
    matches!(
        state,
        FormState::Start(Part::Nothing) | FormState::Open(Part::Nothing)
    )
}
