//! The bytes of a request as they came, without memory of their own.

use std::marker::Model;

/// At most 64 bytes, kept in a fixed array, so that what a device did can be copied without memory.
/// Contracts see the list of them.
#[derive(Clone, Copy, Debug, PartialEq, Eq)]
pub struct RequestBytes {
    count: u8,
    items: [u8; 64],
}

impl Model for RequestBytes {
    ghost use Rattle.std.specs.Prelude.{List, ℕ, take};

    ghost Value = { List ℕ };

    ghost use Rattle.evac_model.specs.Padded.{padded_back};
    ghost use Rattle.evac_model.specs.RequestBytesInside.{IsPadded, padded};

    ghost view = { λ a. take a.count a.items };

    ghost invariant = { IsPadded };

    ghost inverse = { padded };

    ghost inverse_ok = { λ a h. padded_back (λ n xs. record { count = n; items = xs }) 64 a.count a.items h };
}

impl RequestBytes {
    ghost use Rattle.std.specs.Prelude.{◌≡◌, ◌<◌, ◌≤◌, [], ◌∷◌, ◌++◌, length};

    /// No bytes.
    fn new() -> RequestBytes
        ensures { result ≡ [] }
    {
        RequestBytes {
            count: 0,
            items: [0; 64],
        }
    }

    /// These bytes, at most 64.
    pub fn from_slice(bytes: &[u8]) -> RequestBytes
        requires { length bytes.now ≤ 64 }
        ensures { result ≡ bytes.now }
    {
        let mut kept = RequestBytes::new();
        for byte in bytes {
            kept.push(*byte);
        }
        kept
    }

    /// The bytes, in order; at most 64.
    pub fn as_slice(&self) -> &[u8]
        ensures bytes { result.now ≡ self.now }
        ensures most { length self.now ≤ 64 }
    {
        &self.items[..self.count as usize]
    }

    // Adds a byte at the end.
    fn push(&mut self, byte: u8)
        requires { length self.old < 64 }
        ensures { self.new ≡ self.old ++ byte ∷ [] }
    {
        self.items[self.count as usize] = byte;
        self.count += 1;
    }
}
