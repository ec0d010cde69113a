// Text in memory of its own: the line of the input that has not ended yet, and the explanations that are not written yet.
ghost use Rattle.std.specs.Prelude.{◌≡◌, ◌+◌, ◌<◌, ◌≤◌, ◌↔◌, ℕ, List, [], ◌∷◌, ◌++◌, length, take, IsTrue, IsOk, OnErr};

use std::fmt;
use std::marker::Model;

// At most `N` characters. A clause sees them as a list.
#[derive(Drop)]
pub struct Text<const N: usize> {
    characters: [u8; N],
    len: usize,
}

impl<const N: usize> Model for Text<N> {
    ghost Value = { List ℕ };

    ghost view = { λ text. take text.len text.characters };

    ghost invariant = { λ text. text.len ≤ N };
}

impl<const N: usize> Text<N> {
    pub(crate) fn new() -> Self
        ensures { result ≡ [] }
    {
        Text {
            characters: [0; N],
            len: 0,
        }
    }

    pub(crate) fn is_empty(&self) -> bool
        ensures { IsTrue result ↔ (self.now ≡ []) }
    {
        self.len == 0
    }

    // How many more characters there may be.
    pub(crate) fn room(&self) -> usize
        ensures { length self.now + result ≡ N }
    {
        N - self.len
    }

    pub(crate) fn as_slice(&self) -> &[u8]
        ensures { result.now ≡ self.now }
    {
        &self.characters[..self.len]
    }

    // Adds a character, unless there are as many as there may be.
    pub(crate) fn push(&mut self, character: u8)
        ensures room { length self.old < N → self.new ≡ self.old ++ character ∷ [] }
        ensures full { length self.old ≡ N → self.new ≡ self.old }
    {
        if self.len < N {
            self.characters[self.len] = character;
            self.len += 1;
        }
    }

    pub(crate) fn clear(&mut self)
        ensures { self.new ≡ [] }
    {
        self.len = 0;
    }
}

// What is written is added whole, or not at all where it has not the room.
impl<const N: usize> fmt::Write for Text<N> {
    ghost write_str_gives = { λ before text after. after ≡ before ++ text };

    fn write_str(&mut self, text: &str) -> fmt::Result
        ensures ok { IsOk result → self.new ≡ self.old ++ text.now }
        ensures enough { IsOk result ↔ (length self.old + length text.now ≤ N) }
        ensures err { OnErr result (self.new ≡ self.old) }
    {
        if self.room() < text.len() {
            return Err(fmt::Error);
        }
        let characters = &mut self.characters[..];
        characters[self.len..self.len + text.len()].copy_from_slice(text.as_bytes());
        self.len += text.len();
        Ok(())
    }
}
