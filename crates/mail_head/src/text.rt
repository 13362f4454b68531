//! A short text in a value that takes no memory.

ghost use Rattle.std.specs.Prelude.{◌≤◌};

/// A text of N bytes at most.
#[derive(Clone, Copy, Drop)]
pub struct Text<const N: usize> {
    bytes: [u8; N],
    size: usize,
    ghost fits: { size ≤ N },
}

impl<const N: usize> Text<N> {
    ghost use Rattle.std.specs.Prelude.{◌≡◌, ◌++◌, [], take};
    ghost use Rattle.mail_head.specs.Texts.{text_of};

    /// None.
    pub fn empty() -> Text<N>
        ensures { text_of result ≡ [] }
    {
        Text {
            bytes: [0; N],
            size: 0,
        }
    }

    /// That text, as far as there is room.
    pub fn of(text: &[u8]) -> Text<N>
        ensures { text_of result ≡ take N text.now }
    {
        let mut made = Text::empty();
        made.add(text);
        made
    }

    /// The text after it, as far as there is room.
    pub fn add(&mut self, text: &[u8])
        ensures { text_of self.new ≡ take N (text_of self.old ++ text.now) }
    {
        let count = text.len().min(N - self.size);
        let end = self.size + count;
        let bytes = &mut self.bytes[..];
        bytes[self.size..end].copy_from_slice(&text[..count]);
        self.size = end;
    }

    /// Its bytes.
    pub fn text(&self) -> &[u8]
        ensures { result.now ≡ text_of self.now }
    {
        let bytes = &self.bytes[..];
        &bytes[..self.size]
    }
}
