// The fields of a frame, which are read one after another.
ghost use Rattle.std.specs.Prelude.{◌≡◌, ◌*◌, ◌<◌, ◌≤◌, ◌^◌, ◌↔◌, IsOk, IsSomeAnd, OnOk, IfOk};
ghost use Rattle.std.specs.Prelude.{ℕ, List, [], ◌∷◌, length, take, drop, slice_get};
ghost use Rattle.std.specs.Int.{w32, from_be_bytes, cast_signed};

use std::error::Error;
use std::fmt;
use std::marker::Model;

// The most variables, and the most rows, that a frame speaks of.
pub const MAX_COUNT: usize = 12;

// The most bytes of a frame: those of a problem, which has 8, and then rows of coefficients, a constant and a modulus, of 4 each.
pub const MAX_BYTES: usize = 8 + MAX_COUNT * (MAX_COUNT + 2) * 4;

// The error of a line that is no frame of the kinds 01 to 06.
#[derive(Clone, Copy, Debug, PartialEq, Eq)]
pub struct NoFrame;

impl fmt::Display for NoFrame {
    fn fmt<W: fmt::Write>(&self, f: &mut fmt::Formatter<W>) -> fmt::Result {
        f.write_str("no frame")
    }
}

impl Error for NoFrame {}

// The bytes of a frame that are not read yet, which a clause sees as a list. A number has its highest byte first.
#[derive(Drop)]
pub struct Fields<'a>(&'a [u8]);

impl<'a> Model for Fields<'a> {
    ghost Value = { List ℕ };

    ghost view = { λ fields. fields.0.now };
}

impl<'a> Fields<'a> {
    pub(crate) fn new(bytes: &'a [u8]) -> Self
        ensures { result ≡ bytes.now }
    {
        Fields(bytes)
    }

    fn array<const N: usize>(&mut self) -> Result<[u8; N], NoFrame>
        ensures enough { IsOk result ↔ (N ≤ length self.old) }
        ensures value { IfOk result (λ array. array ≡ take N self.old) }
        ensures taken { OnOk result (self.new ≡ drop N self.old) }
    {
        let (&array, rest) = self.0.split_first_chunk().ok_or(NoFrame)?;
        self.0 = rest;
        Ok(array)
    }

    pub(crate) fn byte(&mut self) -> Result<u8, NoFrame>
        ensures enough { IsOk result ↔ (1 ≤ length self.old) }
        ensures taken { IfOk result (λ byte. self.old ≡ byte ∷ self.new) }
    {
        let [byte] = self.array::<1>()?;
        Ok(byte)
    }

    // A byte that counts variables or rows.
    pub(crate) fn count(&mut self) -> Result<usize, NoFrame>
        ensures in_range { IsOk result ↔ IsSomeAnd (slice_get self.old 0) (λ count. (1 ≤ count) × (count ≤ MAX_COUNT)) }
        ensures taken { IfOk result (λ count. self.old ≡ count ∷ self.new) }
        ensures bound { IfOk result (λ count. count ≤ MAX_COUNT) }
    {
        checked_count(usize::from(self.byte()?))
    }

    // A number of 4 bytes without a sign.
    pub(crate) fn unsigned(&mut self) -> Result<u32, NoFrame>
        ensures enough { IsOk result ↔ (4 ≤ length self.old) }
        ensures value { IfOk result (λ number. number ≡ from_be_bytes w32 (take 4 self.old)) }
        ensures taken { OnOk result (self.new ≡ drop 4 self.old) }
    {
        Ok(u32::from_be_bytes(self.array()?))
    }

    // A number of 4 bytes in two's complement.
    pub(crate) fn signed(&mut self) -> Result<i32, NoFrame>
        ensures enough { IsOk result ↔ (4 ≤ length self.old) }
        ensures value { IfOk result (λ number. number ≡ cast_signed w32 (from_be_bytes w32 (take 4 self.old))) }
        ensures taken { OnOk result (self.new ≡ drop 4 self.old) }
    {
        Ok(i32::from_be_bytes(self.array()?))
    }

    // Some numbers of `N` bytes each, left as they stand.
    pub(crate) fn numbers<const N: usize>(&mut self, count: usize) -> Result<&'a [[u8; N]], NoFrame>
        requires sized { 0 < N }
        requires fits { count * N < 2 ^ 64 }
        ensures enough { IsOk result ↔ (count * N ≤ length self.old) }
        ensures count { IfOk result (λ numbers. length numbers.now ≡ count) }
        ensures taken { OnOk result (self.new ≡ drop (count * N) self.old) }
    {
        let (bytes, rest) = self.0.split_at_checked(count * N).ok_or(NoFrame)?;
        self.0 = rest;
        let (numbers, _) = bytes.as_chunks();
        Ok(numbers)
    }

    // That nothing is left.
    pub(crate) fn end(&self) -> Result<(), NoFrame>
        ensures { IsOk result ↔ (self.now ≡ []) }
    {
        if self.0.is_empty() {
            Ok(())
        } else {
            Err(NoFrame)
        }
    }
}

// A count of variables or of rows, if it is 1 to 12.
pub(crate) fn checked_count(count: usize) -> Result<usize, NoFrame>
    ensures in_range { IsOk result ↔ (1 ≤ count) × (count ≤ MAX_COUNT) }
    ensures same { IfOk result (λ checked. checked ≡ count) }
{
    if (1..=MAX_COUNT).contains(&count) {
        Ok(count)
    } else {
        Err(NoFrame)
    }
}
