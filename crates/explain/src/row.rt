// Rows, and what they are written with: numbers, terms and sums of terms.
ghost use Rattle.std.specs.Prelude.{◌≡◌, ◌≢◌, ◌-◌, ◌≤◌, ◌↔◌, ℤ, pos, length, take, slice_get, IfSome, IsTrue, Any};
ghost use Rattle.std.specs.Int.{w32, w64, from_be_bytes, cast_signed};

use std::fmt;

// A number in two's complement, its highest byte first.
pub trait Number: Copy {
    // The number that the bytes stand for.
    ghost number: { Self → ℤ };

    fn value(self) -> i64
        ensures { result ≡ number self };
}

impl Number for [u8; 4] {
    ghost number = { λ bytes. cast_signed w32 (from_be_bytes w32 bytes) };

    fn value(self) -> i64 {
        i64::from(i32::from_be_bytes(self))
    }
}

impl Number for [u8; 8] {
    ghost number = { λ bytes. cast_signed w64 (from_be_bytes w64 bytes) };

    fn value(self) -> i64 {
        i64::from_be_bytes(self)
    }
}

// A coefficient times its variable. The variables are x1, x2 and so on.
//
// `{}` writes a first term, as `-2*x1`, and `{:+}` one that follows another, as ` - 2*x1`.
#[derive(Clone, Copy)]
struct Term {
    coefficient: i64,
    variable: u64,
}

impl fmt::Display for Term {
    fn fmt<W: fmt::Write>(&self, f: &mut fmt::Formatter<W>) -> fmt::Result {
        let sign = match (self.coefficient < 0, f.sign_plus()) {
            (true, true) => " - ",
            (true, false) => "-",
            (false, true) => " + ",
            (false, false) => "",
        };
        let variable = self.variable;
        match self.coefficient.unsigned_abs() {
            1 => write!(f, "{sign}x{variable}"),
            size => write!(f, "{sign}{size}*x{variable}"),
        }
    }
}

// The sum of coefficients times their variables. A term whose coefficient is 0 is not written.
#[derive(Clone, Copy)]
struct Sum<'a, N>(&'a [N]);

impl<N: Number> fmt::Display for Sum<'_, N> {
    fn fmt<W: fmt::Write>(&self, f: &mut fmt::Formatter<W>) -> fmt::Result {
        let mut terms = (1..)
            .zip(self.0)
            .map(|(variable, number)| Term {
                coefficient: number.value(),
                variable,
            })
            .filter(|term| term.coefficient != 0);
        let Some(first) = terms.next() else {
            return f.write_str("0");
        };
        write!(f, "{first}")?;
        for term in terms {
            write!(f, "{term:+}")?;
        }
        Ok(())
    }
}

// The sum of some terms, and the constant that it equals. Modulus 0 is an equation.
#[derive(Clone, Copy)]
pub struct Row<'a, N> {
    pub coefficients: &'a [N],
    pub constant: i64,
    pub modulus: i64,
}

impl<'a, N: Number> Row<'a, N> {
    // The row of some numbers: coefficients, the constant and the modulus.
    pub(crate) fn new(numbers: &'a [N]) -> Self
        requires { 2 ≤ length numbers.now }
        ensures coefficients { result.coefficients.now ≡ take (length numbers.now - 2) numbers.now }
        ensures constant { IfSome (slice_get numbers.now (length numbers.now - 2)) (λ bytes. result.constant ≡ N.number bytes) }
        ensures modulus { IfSome (slice_get numbers.now (length numbers.now - 1)) (λ bytes. result.modulus ≡ N.number bytes) }
    {
        let [coefficients @ .., constant, modulus] = numbers else {
            unreachable!()
        };
        Row {
            coefficients,
            constant: constant.value(),
            modulus: modulus.value(),
        }
    }

    pub(crate) fn has_terms(&self) -> bool
        ensures { IsTrue result ↔ Any (λ bytes. N.number bytes ≢ pos 0) self.now.coefficients.now }
    {
        self.coefficients.iter().any(|number| number.value() != 0)
    }
}

impl<N: Number> fmt::Display for Row<'_, N> {
    fn fmt<W: fmt::Write>(&self, f: &mut fmt::Formatter<W>) -> fmt::Result {
        write!(f, "{} = {}", Sum(self.coefficients), self.constant)?;
        if self.modulus != 0 {
            write!(f, " (mod {})", self.modulus)?;
        }
        Ok(())
    }
}
