//! Values in place, which take no memory.

ghost use Rattle.std.specs.Prelude.{◌≡◌, ◌≤◌, ◌<◌, ◌++◌, ◌∷◌, ◌==◌, [], List, length, take};

use std::marker::Model;

/// At most `N` values. Array elements past the length have no meaning.
#[derive(Drop)]
pub struct Buffer<T, const N: usize> {
    values: [T; N],
    len: usize,
}

/// A text of up to 4096 bytes, as many as a line has.
pub type LineBuffer = Buffer<u8, 4096>;

impl<T, const N: usize> Model for Buffer<T, N> {
    ghost Value = { List T };

    ghost view = { λ b. take b.len b.values };

    ghost invariant = { λ b. b.len ≤ N };
}

impl<T: Copy + Default, const N: usize> Buffer<T, N> {
    /// Makes a buffer without values.
    pub fn new() -> Self
        ensures { result ≡ [] }
    {
        Buffer {
            values: [T::default(); N],
            len: 0,
        }
    }
}

impl<T: Copy, const N: usize> Buffer<T, N> {
    /// Removes all values, at no cost: the old elements are never read again.
    pub fn clear(&mut self)
        ensures { self.new ≡ [] }
    {
        self.len = 0;
    }

    /// Returns the number of values.
    pub fn len(&self) -> usize
        ensures { result ≡ length self.now }
    {
        self.len
    }

    /// Tells whether it has no values.
    pub fn is_empty(&self) -> bool
        ensures { result ≡ (length self.now == 0) }
    {
        self.len == 0
    }

    /// Returns the values.
    pub fn as_slice(&self) -> &[T]
        ensures { result.now ≡ self.now }
    {
        &self.values[..self.len]
    }

    /// Adds a value at the end.
    pub fn push(&mut self, value: T)
        requires { length self.old < N }
        ensures { self.new ≡ self.old ++ value ∷ [] }
    {
        self.values[self.len] = value;
        self.len += 1;
    }

    /// Adds values at the end, and drops those for which there is no room.
    pub fn extend(&mut self, more: &[T])
        ensures { self.new ≡ take N (self.old ++ more.now) }
    {
        let count = (N - self.len).min(more.len());
        let end = self.len + count;
        let values = &mut self.values[..];
        values[self.len..end].copy_from_slice(&more[..count]);
        self.len = end;
    }
}
