//! Where the next mark of a message's head stands in a piece of it.
ghost use Rattle.std.specs.Prelude.{◌≡◌, ◌<◌, ◌≤◌, ◌++◌, ◌||◌, ◌==◌, ℕ, Bool, List, [], ◌∷◌, length, true, false};
ghost use Rattle.std.specs.Prelude.{IfSome, IfNone, Some, if◌then◌else◌};
ghost use Rattle.std.specs.List.{list_all};
ghost use Rattle.std.specs.Char.{to_ascii_lowercase};
ghost use Rattle.mail_world.specs.Marks.{ends_name, has_name, is_named, was};
ghost use Rattle.mail_world.specs.Text.{cr, lf, begins_with};
ghost use Rattle.mbox_marks.specs.Marking.{is_empty_line};
ghost use Rattle.mbox_marks.specs.Marked.{Tells, either, IsStart, IsStep, FindsMark, is_plain_name};
ghost use Rattle.mbox_marks.specs.declared.marking.Place.TheVariants.{Line, Field, Inside};

use memchr::memchr2;

/// What a mark is renamed by.
pub const WAS: &[u8] = b"X-Was-";

/// Where in the message a writer stands.
#[derive(Clone, Copy, Debug)]
pub enum Place {
    /// At the beginning of a line of the head.
    Line,
    /// At the beginning of a field within a line, after a CR or after `X-Was-`.
    Field,
    /// Within a field.
    Inside,
    /// Past the head, or in a message whose marks stay.
    Body,
}

// What the first bytes of a field say of it.
#[derive(Clone, Copy)]
enum Start {
    // It is a mark.
    Mark,
    // It begins with `X-Was-`, and is a mark if what follows is one.
    Was,
    // They are all of a name but its end.
    Begun,
    // It is no mark.
    Other,
}

// What becomes of a piece's first bytes.
#[derive(Clone, Copy)]
enum Step {
    // That many stay as they are, and the rest stands at that place.
    On(usize, Place),
    // A mark begins with them.
    Mark,
    // They are held back, all that there are.
    Held,
}

/// The first `at` bytes of a piece stay as they are. Either a mark stands there, or all bytes after these are held
/// back.
#[derive(Clone, Copy, Debug)]
pub struct Found {
    pub at: usize,
    pub place: Place,
    pub is_mark: bool,
}

/// Finds the first mark of a piece of the message that begins at that place.
pub fn find_mark(place: Place, bytes: &[u8]) -> Found
    ensures { FindsMark place bytes.now result }
{
    let mut at = 0;
    let mut place = place;
    while at < bytes.len() {
        match place_step(place, &bytes[at..]) {
            Step::On(taken, next) => {
                at += taken;
                place = next;
            }
            Step::Mark => {
                return Found {
                    at,
                    place: Place::Inside,
                    is_mark: true,
                };
            }
            Step::Held => break,
        }
    }
    Found {
        at,
        place,
        is_mark: false,
    }
}

fn place_step(place: Place, bytes: &[u8]) -> Step
    requires some { 0 < length bytes.now }
    ensures { IsStep place bytes.now result }
{
    match place {
        Place::Line => line_step(bytes),
        Place::Field => field_step(bytes),
        Place::Inside => inside_step(bytes),
        Place::Body => Step::On(bytes.len(), Place::Body),
    }
}

// At the beginning of a line, which ends the head where it is empty.
fn line_step(bytes: &[u8]) -> Step
    requires some { 0 < length bytes.now }
    ensures { IsStep Line bytes.now result }
{
    match is_empty_line(bytes) {
        Some(true) => Step::On(0, Place::Body),
        Some(false) => field_step(bytes),
        None => Step::Held,
    }
}

// Whether an empty line begins here, whatever follows.
fn is_empty_line(bytes: &[u8]) -> Option<bool>
    requires some { 0 < length bytes.now }
    ensures some { IfSome result (λ is. (rest : List ℕ) → is_empty_line (bytes.now ++ rest) ≡ is) }
    ensures none { IfNone result (bytes.now ≡ cr ∷ []) }
{
    if bytes[0] == b'\n' {
        return Some(true);
    }
    if bytes[0] != b'\r' {
        return Some(false);
    }
    if bytes.len() == 1 {
        return None;
    }
    Some(bytes[1] == b'\n')
}

// At the beginning of a field.
fn field_step(bytes: &[u8]) -> Step
    requires some { 0 < length bytes.now }
    ensures { IsStep Field bytes.now result }
{
    match start_of(bytes) {
        Start::Mark => Step::Mark,
        Start::Was => Step::On(WAS.len(), Place::Field),
        Start::Begun => Step::Held,
        Start::Other => Step::On(0, Place::Inside),
    }
}

// Within a field, up to its end.
fn inside_step(bytes: &[u8]) -> Step
    requires some { 0 < length bytes.now }
    ensures { IsStep Inside bytes.now result }
{
    match memchr2(b'\n', b'\r', bytes) {
        Some(at) => Step::On(at + 1, place_after(bytes[at])),
        None => Step::On(bytes.len(), Place::Inside),
    }
}

// After the byte that ends a field.
fn place_after(end: u8) -> Place
    ensures { result ≡ if end == lf then Line else Field }
{
    if end == b'\n' {
        Place::Line
    } else {
        Place::Field
    }
}

fn start_of(bytes: &[u8]) -> Start
    requires some { 0 < length bytes.now }
    ensures { IsStart bytes.now result }
{
    if !may_begin_mark(bytes[0]) {
        return Start::Other;
    }
    if bytes.starts_with(WAS) {
        return Start::Was;
    }
    match is_named(bytes) {
        Some(true) => Start::Mark,
        Some(false) => may_be_was(bytes),
        None => Start::Begun,
    }
}

// No name of a mark, but perhaps a part of `X-Was-`.
fn may_be_was(bytes: &[u8]) -> Start
    requires some { 0 < length bytes.now }
    requires other { Tells (Some false) bytes.now is_named }
    requires no_was { begins_with was bytes.now ≡ false }
    ensures { IsStart bytes.now result }
{
    if WAS.starts_with(bytes) {
        Start::Begun
    } else {
        Start::Other
    }
}

// Most fields are told by their first byte.
#[inline(always)]
fn may_begin_mark(first: u8) -> bool
    ensures { result ≡ (to_ascii_lowercase first == 115) || (to_ascii_lowercase first == 120)
        || (to_ascii_lowercase first == 99) }
{
    let first = first.to_ascii_lowercase();
    first == b's' || first == b'x' || first == b'c'
}

// Whether a field begins with the name of a mark, whatever follows; None if more bytes tell.
fn is_named(bytes: &[u8]) -> Option<bool>
    ensures { Tells result bytes.now is_named }
{
    let found = either(has_name(b"Content-Length", bytes), Some(false));
    let found = either(has_name(b"X-IMAPbase", bytes), found);
    let found = either(has_name(b"X-IMAP", bytes), found);
    let found = either(has_name(b"X-Keywords", bytes), found);
    let found = either(has_name(b"X-UID", bytes), found);
    let found = either(has_name(b"X-Status", bytes), found);
    either(has_name(b"Status", bytes), found)
}

// Whether one of two tests passes, where the first or the second may not be told yet.
fn either(first: Option<bool>, second: Option<bool>) -> Option<bool>
    ensures { result ≡ either first second }
{
    match first {
        Some(true) => Some(true),
        Some(false) => second,
        None => match second {
            Some(true) => Some(true),
            Some(false) => None,
            None => None,
        },
    }
}

// Whether a field begins with that name and the byte that ends one.
fn has_name(name: &[u8], bytes: &[u8]) -> Option<bool>
    requires few { length name.now ≤ 14 }
    requires plain { is_plain_name name.now ≡ true }
    ensures { Tells result bytes.now (has_name name.now) }
{
    for (i, byte) in bytes.iter().enumerate() {
        if i == name.len() {
            return Some(ends_name(*byte));
        }
        if !name[i].eq_ignore_ascii_case(byte) {
            return Some(false);
        }
    }
    None
}

fn ends_name(byte: u8) -> bool
    ensures { result ≡ ends_name byte }
{
    matches!(byte, b':' | b' ' | b'\t' | b'\0' | b'\x0b' | b'\x0c')
}
