//! The few bytes that a writer holds back.
ghost use Rattle.std.specs.Prelude.{◌≡◌, ◌≤◌, ◌<◌, ◌==◌, ◌++◌, [], ◌∷◌, length};

use std::marker::Model;

/// As many as the longest name of a mark has, and the byte after it.
pub const HELD_LIMIT: usize = 15;

/// Bytes at the beginning of a field, or a CR at that of a line.
#[derive(Drop)]
pub struct Held {
    bytes: [u8; HELD_LIMIT],
    len: usize,
}

impl Model for Held {
    ghost use Rattle.std.specs.Prelude.{◌≤◌, ℕ, List, take};

    ghost Value = { List ℕ };

    ghost view = { λ h. take h.len h.bytes };

    ghost invariant = { λ h. h.len ≤ 15 };
}

impl Held {
    /// These bytes.
    pub fn of(bytes: &[u8]) -> Held
        requires { length bytes.now ≤ 15 }
        ensures { result ≡ bytes.now }
    {
        let mut held = [0; HELD_LIMIT];
        held[..bytes.len()].copy_from_slice(bytes);
        Held {
            bytes: held,
            len: bytes.len(),
        }
    }

    /// With one byte more.
    pub fn with(&self, byte: u8) -> Held
        requires { length self.now < 15 }
        ensures { result ≡ self.now ++ byte ∷ [] }
    {
        let mut bytes = self.bytes;
        bytes[self.len] = byte;
        Held {
            bytes,
            len: self.len + 1,
        }
    }

    /// Whether none is held back.
    pub fn is_empty(&self) -> bool
        ensures { result ≡ (length self.now == 0) }
    {
        self.len == 0
    }

    /// All that are held back, in their order.
    pub fn as_slice(&self) -> &[u8]
        ensures { result.now ≡ self.now }
    {
        &self.bytes[..self.len]
    }
}
