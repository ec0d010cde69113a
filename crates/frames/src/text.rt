//! The answer to a line while it is written: frames 02 to 06, each with its line end.
ghost use Rattle.std.specs.Prelude.{◌≡◌, [], ◌∷◌, ◌++◌, ◌+◌, ◌*◌, ◌<◌, ◌≤◌, List, ℕ, length, take};
ghost use Rattle.problem.specs.Refusal.{number_of};
ghost use Rattle.frames.specs.Hex.{char_of, hex, signed_hex, hexes};
ghost use Rattle.frames.specs.Answer.{answer_max, line_end, refutation_frame, point_frame, unfinished_frame, interpolant_frame, refusal_frame};

use crate::ANSWER_MAX;
use problem::Refusal;
use std::marker::Model;

// What the first byte of a frame says.
enum Kind {
    Refutation = 2,
    Point = 3,
    Unfinished = 4,
    Interpolant = 5,
    Refusal = 6,
}

// Text of no more than `ANSWER_MAX` characters. A clause sees it as the list of those that are written.
#[derive(Drop)]
pub struct Text {
    characters: [u8; ANSWER_MAX],
    len: usize,
}

impl Model for Text {
    ghost Value = { List ℕ };

    ghost view = { λ text. take text.len text.characters };

    ghost invariant = { λ text. text.len ≤ answer_max };
}

impl Text {
    pub(crate) fn new() -> Self
        ensures { result ≡ [] }
    {
        Text {
            characters: [0; ANSWER_MAX],
            len: 0,
        }
    }

    pub(crate) fn as_slice(&self) -> &[u8]
        ensures text { result.now ≡ self.now }
        ensures len { length result.now ≤ answer_max }
    {
        &self.characters[..self.len]
    }

    #[tactic(auto, unfolding(crate::specs::Answer::refutation_frame))]
    pub(crate) fn refutation(&mut self, steps: u32, m: usize, q: i64, vector: &[i64])
        requires { length self.old + 21 + length vector.now * 8 ≤ answer_max }
        ensures text { self.new ≡ self.old ++ refutation_frame steps m q vector.now }
        ensures len { length self.new ≡ length self.old + 21 + length vector.now * 8 }
    {
        self.hex(2, Kind::Refutation as u64);
        self.hex(8, u64::from(steps));
        self.hex(2, m as u64);
        self.signed(8, q);
        self.numbers(8, vector);
        self.end_line();
    }

    #[tactic(auto, unfolding(crate::specs::Answer::point_frame))]
    pub(crate) fn point(&mut self, steps: u32, n: usize, point: &[i64])
        requires { length self.old + 13 + length point.now * 8 ≤ answer_max }
        ensures { self.new ≡ self.old ++ point_frame steps n point.now }
    {
        self.hex(2, Kind::Point as u64);
        self.hex(8, u64::from(steps));
        self.hex(2, n as u64);
        self.numbers(8, point);
        self.end_line();
    }

    #[tactic(auto, unfolding(crate::specs::Answer::unfinished_frame))]
    pub(crate) fn unfinished(&mut self, steps: u32)
        requires { length self.old + 11 ≤ answer_max }
        ensures { self.new ≡ self.old ++ unfinished_frame steps }
    {
        self.hex(2, Kind::Unfinished as u64);
        self.hex(8, u64::from(steps));
        self.end_line();
    }

    #[tactic(auto, unfolding(crate::specs::Answer::interpolant_frame))]
    pub(crate) fn interpolant(&mut self, n: usize, coeffs: &[i64], constant: i64, modulus: i64)
        requires { length self.old + 37 + length coeffs.now * 16 ≤ answer_max }
        ensures { self.new ≡ self.old ++ interpolant_frame n coeffs.now constant modulus }
    {
        self.hex(2, Kind::Interpolant as u64);
        self.hex(2, n as u64);
        self.numbers(16, coeffs);
        self.signed(16, constant);
        self.signed(16, modulus);
        self.end_line();
    }

    #[tactic(auto, unfolding(crate::specs::Answer::refusal_frame))]
    pub(crate) fn refusal(&mut self, refusal: Refusal, steps: u32)
        requires { length self.old + 13 ≤ answer_max }
        ensures { self.new ≡ self.old ++ refusal_frame (number_of refusal) steps }
    {
        self.hex(2, Kind::Refusal as u64);
        self.hex(2, u64::from(refusal.number()));
        self.hex(8, u64::from(steps));
        self.end_line();
    }

    // Writes numbers, the lowest `count` digits of each.
    fn numbers(&mut self, count: usize, run: &[i64])
        requires { length self.old + length run.now * count ≤ answer_max }
        ensures text { self.new ≡ self.old ++ hexes count run.now }
        ensures len { length self.new ≡ length self.old + length run.now * count }
    {
        for x in run {
            self.signed(count, *x);
        }
    }

    // Writes the lowest `count` digits of a signed number's two's complement.
    fn signed(&mut self, count: usize, x: i64)
        requires { length self.old + count ≤ answer_max }
        ensures text { self.new ≡ self.old ++ signed_hex count x }
        ensures len { length self.new ≡ length self.old + count }
    {
        self.hex(count, x.cast_unsigned());
    }

    // Writes the lowest `count` digits of a number, from the last to the first.
    fn hex(&mut self, count: usize, value: u64)
        requires { length self.old + count ≤ answer_max }
        ensures text { self.new ≡ self.old ++ hex count value }
        ensures len { length self.new ≡ length self.old + count }
    {
        let mut rest = value;
        for k in (0..count).rev() {
            self.characters[self.len + k] = digit(rest % 16);
            rest /= 16;
        }
        self.len += count;
    }

    fn end_line(&mut self)
        requires { length self.old < answer_max }
        ensures { self.new ≡ self.old ++ line_end }
    {
        self.characters[self.len] = b'\n';
        self.len += 1;
    }
}

// The digit of a value.
#[tactic(auto, unfolding(crate::specs::Hex::char_of))]
fn digit(value: u64) -> u8
    requires { value < 16 }
    ensures { result ≡ char_of value }
{
    let value = value as u8;
    if value < 10 {
        b'0' + value
    } else {
        b'a' + (value - 10)
    }
}
