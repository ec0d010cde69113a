// Calls the checker on the examples of the article, on variables that only seem to occur, on the paper's cases 5 to 7, at the ends of
// the ranges, and for each refusal. The last lines are of searches, the paper's cases 8 and 9.
//
// The variables x, y, z are x1, x2, x3. A row is its coefficients, its constant and its modulus. A comment above a call derives
// its answer: S by variable over A's rows, then K and M, as the paper names them, and g, by which the normal form divides.
#![tactic(auto)]

use checker::Fact;
use problem::Problem;
use search::Outcome;
use std::{fmt, io};

// A fact, as an equation or a congruence.
#[derive(Clone, Copy)]
struct Written<'a> {
    coeffs: &'a [i64],
    fact: Fact,
}

impl fmt::Display for Written<'_> {
    fn fmt<W: fmt::Write>(&self, f: &mut fmt::Formatter<W>) -> fmt::Result {
        let Fact { constant, modulus } = self.fact;
        // A fact without terms is TRUE or FALSE in normal form; another would be written as it is.
        match (self.coeffs.iter().all(|c| *c == 0), constant, modulus) {
            (true, 0, 0) => return write!(f, "TRUE"),
            (true, 1, 0) => return write!(f, "FALSE"),
            (true, _, _) => write!(f, "0")?,
            (false, _, _) => terms(f, self.coeffs)?,
        }
        write!(f, " = {constant}")?;
        if modulus == 0 {
            return Ok(());
        }
        write!(f, " (mod {modulus})")
    }
}

// The sum of the terms that are not 0.
fn terms<W: fmt::Write>(f: &mut fmt::Formatter<W>, coeffs: &[i64]) -> fmt::Result {
    let mut first = true;
    for (j, c) in coeffs.iter().enumerate() {
        if *c == 0 {
            continue;
        }
        match (first, *c < 0) {
            (true, true) => write!(f, "-")?,
            (true, false) => {}
            (false, true) => write!(f, " - ")?,
            (false, false) => write!(f, " + ")?,
        }
        match c.unsigned_abs() {
            1 => write!(f, "x{}", j + 1)?,
            size => write!(f, "{size}*x{}", j + 1)?,
        }
        first = false;
    }
    Ok(())
}

// The numbers of a run, each after a space.
#[derive(Clone, Copy)]
struct Numbers<'a>(&'a [i64]);

impl fmt::Display for Numbers<'_> {
    fn fmt<W: fmt::Write>(&self, f: &mut fmt::Formatter<W>) -> fmt::Result {
        for x in self.0 {
            write!(f, " {x}")?;
        }
        Ok(())
    }
}

// n variables, mA and mB rows, and the numbers of the rows.
fn problem<'a>(n: usize, ma: usize, mb: usize, a: &'a [i64], b: &'a [i64]) -> Problem<'a> {
    Problem { n, ma, mb, a, b }
}

// A line with the fact, or the refusal.
fn line(
    rt: &impl Print,
    name: &str,
    problem: &Problem,
    q: i64,
    p: &[i64],
    coeffs: &mut [i64],
) -> io::Result<()> {
    match checker::judge(problem, q, p, coeffs) {
        Ok(fact) => println!(rt; "{name}: {}", Written { coeffs, fact }),
        Err(refusal) => println!(rt; "{name}: refused: {}", refusal.number()),
    }
}

// A line with what a run holds.
fn holds(rt: &impl Print, name: &str, run: &[i64]) -> io::Result<()> {
    println!(rt; "{name}:{}", Numbers(run))
}

// The system of example 3, divided as in examples 5 and 7: A x - 2y = 0; B x - 2z = 1.
fn parity(rt: &impl Print, name: &str, q: i64, p: &[i64]) -> io::Result<()> {
    let a = [1, -2, 0, 0, 0];
    let b = [1, 0, -2, 1, 0];
    let mut f = [7, 7, 7];
    line(rt, name, &problem(3, 1, 1, &a, &b), q, p, &mut f)
}

// Other rows of three variables, one on each side, with the vector of example 3.
fn halved(rt: &impl Print, name: &str, a: &[i64], b: &[i64]) -> io::Result<()> {
    let p = [1, 1];
    let mut f = [7, 7, 7];
    line(rt, name, &problem(3, 1, 1, a, b), 2, &p, &mut f)
}

// The paper's case 6: A x = 0; B x = 1.
fn zero_or_one(rt: &impl Print, name: &str, q: i64, p: &[i64]) -> io::Result<()> {
    let a = [1, 0, 0];
    let b = [1, 1, 0];
    let mut f = [7];
    line(rt, name, &problem(1, 1, 1, &a, &b), q, p, &mut f)
}

// A row of one variable on each side.
fn single(rt: &impl Print, name: &str, a: &[i64], b: &[i64], q: i64, p: &[i64]) -> io::Result<()> {
    let mut f = [7];
    line(rt, name, &problem(1, 1, 1, a, b), q, p, &mut f)
}

// Rows of two variables, with the denominator 2.
fn divided(
    rt: &impl Print,
    name: &str,
    ma: usize,
    mb: usize,
    a: &[i64],
    b: &[i64],
    p: &[i64],
) -> io::Result<()> {
    let mut f = [7, 7];
    line(rt, name, &problem(2, ma, mb, a, b), 2, p, &mut f)
}

// Example 1, that x ≡ 0 (mod 1) for every x: A x ≡ 0 (mod 1); B 2x = 1.
fn every_integer(rt: &impl Print) -> io::Result<()> {
    let a = [1, 0, 1];
    let b = [2, 1, 0];
    let p = [2, 1];
    // Modulo 1 nothing occurs, so x is not shared. x: 2, K = 0, M = 2: 0 ≡ 0 (mod 2), and by g = 2 the modulus is 1.
    single(rt, "example 1", &a, &b, 2, &p)
}

// The system of example 2, divided as in example 6: A x + y = 1, x - y = 1; B 2y + 2z = 3; R = [1/2, -1/2, 1/2].
fn partial_interpolant(rt: &impl Print) -> io::Result<()> {
    let a = [1, 1, 0, 1, 0, 1, -1, 0, 1, 0];
    let b = [0, 2, 2, 3, 0];
    let mut f = [7, 7, 7];
    let p = [1, -1, 1];
    // x: 1 - 1 = 0, y: 1 + 1 = 2, K = 1 - 1 = 0. Only x is A-local, so M = 0: 2y = 0, by g = 2.
    line(
        rt,
        "examples 2, 6",
        &problem(3, 2, 1, &a, &b),
        2,
        &p,
        &mut f,
    )?;
    let turned = [1, 1, -1];
    // y: 2, z: 2, K = 3. z is A-local, so M = 2: 2y ≡ 3 (mod 2), and g = 2 does not divide 3.
    line(
        rt,
        "example 6, exchanged",
        &problem(3, 1, 2, &b, &a),
        2,
        &turned,
        &mut f,
    )
}

fn even_and_odd(rt: &impl Print) -> io::Result<()> {
    let half = [1, 1];
    // x: 1, y: -2, K = 0. y is A-local, so M = 2.
    parity(rt, "examples 3, 5, 7", 2, &half)?;
    let a = [1, 0, -2, 1, 0];
    let b = [1, -2, 0, 0, 0];
    // x: 1, z: -2, K = 1. z is A-local, so M = 2.
    halved(rt, "example 5, exchanged", &a, &b)?;
    let second = [-1, 1];
    // The second row of the inverse. x: -1, y: 2, K = 0, M = 2: -x ≡ 0 (mod 2), and -1 ≡ 1.
    parity(rt, "example 10", 2, &second)?;
    let first = [1, 0];
    // Its first row is no proof: q = 1 divides the sum, 0.
    parity(rt, "example 10, first row", 1, &first)
}

// Example 4, the combination x - y - z = 1/2 of both rows of example 3: A has both.
fn both_rows(rt: &impl Print) -> io::Result<()> {
    let a = [1, -2, 0, 0, 0, 1, 0, -2, 1, 0];
    let b: [i64; 0] = [];
    let p = [1, 1];
    let mut f = [7, 7, 7];
    // x: 2, y: -2, z: -2, K = 1. All are A-local, so M = 2, which does not divide 1.
    line(rt, "example 4", &problem(3, 2, 0, &a, &b), 2, &p, &mut f)
}

// The system of example 8, divided as in example 9, all modulo 8: A 2x + 2y ≡ 4, 2x + y ≡ 4; B 4x ≡ 4; R = [1/4, -1/2, -1/8].
fn one_modulus(rt: &impl Print) -> io::Result<()> {
    let a = [2, 2, 4, 8, 2, 1, 4, 8];
    let b = [4, 0, 4, 8];
    let mut f = [7, 7];
    let p = [2, -4, -1];
    // x: 4 - 8 = -4, y: 4 - 4 = 0, K = 8 - 16 = -8, M = gcd(0, 16, 32) = 16: -x ≡ -2 (mod 4), by g = 4, and -1 ≡ 3.
    // The article writes x ≡ 2 (mod 4), the same times 3. Its fact for β = 1, x ≡ 0 (mod 2), is no answer of this checker.
    line(
        rt,
        "examples 8, 9",
        &problem(2, 2, 1, &a, &b),
        8,
        &p,
        &mut f,
    )?;
    let turned = [-1, 2, -4];
    // x: -4, K = -4, M = 8: -x ≡ -1 (mod 2), by g = 4.
    line(
        rt,
        "example 9, exchanged",
        &problem(2, 1, 2, &b, &a),
        8,
        &turned,
        &mut f,
    )
}

// Example 8 with all its rows in A, the contradiction 0 ≡ -12 (mod 8).
fn contradiction(rt: &impl Print) -> io::Result<()> {
    let a = [2, 2, 4, 8, 2, 1, 4, 8, 4, 0, 4, 8];
    let b: [i64; 0] = [];
    let p = [2, -4, -1];
    let mut f = [7, 7];
    // x: -8, y: 0, K = -12, M = gcd(8, 0, 16, 32, 8) = 8, which does not divide 12.
    line(
        rt,
        "example 8, all in A",
        &problem(2, 3, 0, &a, &b),
        8,
        &p,
        &mut f,
    )
}

// The system F of section 4.2: x ≡ 1 (mod 2), x + y ≡ 2 (mod 4), 2x + y ≡ 4 (mod 8).
fn different_moduli(rt: &impl Print) -> io::Result<()> {
    let p = [1, 1, -1];
    let first_two = [1, 0, 1, 2, 1, 1, 2, 4];
    let last = [2, 1, 4, 8];
    // x: 1 + 1 = 2, y: 1, K = 1 + 2 = 3, M = gcd(2, 4) = 2: 2x + y ≡ 3 (mod 2).
    divided(rt, "section 4.2", 2, 1, &first_two, &last, &p)?;
    let first = [1, 0, 1, 2];
    let last_two = [1, 1, 2, 4, 2, 1, 4, 8];
    // x: 1, K = 1, M = 2.
    divided(rt, "section 4.2, row 1 in A", 1, 2, &first, &last_two, &p)?;
    let outer = [1, 0, 1, 2, 2, 1, 4, 8];
    let inner = [1, 1, 2, 4];
    let moved = [1, -1, 1];
    // x: 1 - 2 = -1, y: -1, K = 1 - 4 = -3, M = gcd(2, 8) = 2: -x - y ≡ -3 (mod 2).
    divided(
        rt,
        "section 4.2, rows 1, 3 in A",
        2,
        1,
        &outer,
        &inner,
        &moved,
    )
}

// The system F' of section 4.2, F with the modulus 8 throughout: A 4x ≡ 4, 2x + 2y ≡ 4; B 2x + y ≡ 4.
fn one_common_modulus(rt: &impl Print) -> io::Result<()> {
    let a = [4, 0, 4, 8, 2, 2, 4, 8];
    let b = [2, 1, 4, 8];
    let p = [1, 2, -4];
    let mut f = [7, 7];
    // x: 4 + 4 = 8, y: 4, K = 4 + 8 = 12, M = gcd(8, 16) = 8: 2x + y ≡ 3 (mod 2), by g = 4.
    line(
        rt,
        "section 4.2, F'",
        &problem(2, 2, 1, &a, &b),
        8,
        &p,
        &mut f,
    )
}

// Where the article leaves a choice.
fn choices(rt: &impl Print) -> io::Result<()> {
    let multiple = [1, -4, 0, 0, 0];
    let odd = [1, 0, -2, 1, 0];
    // Theorem 2 allows the moduli 2 and 4, and the largest is taken. x: 1, y: -4, K = 0, M = 4.
    halved(rt, "theorem 2, largest modulus", &multiple, &odd)?;
    let a = [1, 0, 8];
    let b = [2, 1, 8];
    let p = [0, 4];
    // Theorem 4 with no row of A used, its 0 ≡ 0 (mod 8). x: 0, K = 0, M = 0.
    single(rt, "theorem 4, trivial", &a, &b, 8, &p)
}

// Variables that only seem to occur in a congruence, since its modulus divides their coefficient.
fn seeming(rt: &impl Print) -> io::Result<()> {
    let even = [1, -2, 0, 0, 0];
    let sum = [1, 2, 0, 1, 2];
    // Modulo 2, y does not occur in x + 2y, so y is A-local. x: 1, y: -2, K = 0, M = 2.
    halved(rt, "2*x2 in B, modulo 2", &even, &sum)?;
    let b = [1, 0, -2, 1, 0, 0, 1, 0, 0, 1];
    let half = [1, 1, 0];
    let mut f = [7, 7, 7];
    // Modulo 1, y does not occur in y ≡ 0, which has no weight here. x: 1, y: -2, K = 0, M = 2.
    line(
        rt,
        "x2 in B, modulo 1",
        &problem(3, 1, 2, &even, &b),
        2,
        &half,
        &mut f,
    )
}

// A y - 2x = 1, that y is odd; B 8x - 4y ≡ 0 (mod 8), that y is even, where x does not occur.
fn seeming_modulo_eight(rt: &impl Print) -> io::Result<()> {
    let a = [-2, 1, 1, 0];
    let b = [8, -4, 0, 8];
    let p = [4, 1];
    let mut f = [7, 7];
    // x: -8, y: 4, K = 4. x is A-local, so M = 8: y ≡ 1 (mod 2), by g = 4.
    line(
        rt,
        "8*x1 in B, modulo 8",
        &problem(2, 1, 1, &a, &b),
        8,
        &p,
        &mut f,
    )?;
    let turned = [1, 4];
    // x: 8, y: -4, K = 0, M = 8. x does not occur in A, so it is not shared: -y ≡ 0 (mod 2), by g = 4.
    line(
        rt,
        "8*x1 in A, modulo 8",
        &problem(2, 1, 1, &b, &a),
        8,
        &turned,
        &mut f,
    )
}

// The normal form of an equation.
fn equations(rt: &impl Print) -> io::Result<()> {
    let a = [-2, 4, 0, 6, 0];
    let b = [2, -4, 0, 7, 0];
    // x: -2, y: 4, K = 6, M = 0: -x + 2y = 3, by g = 2, and the first coefficient is made positive.
    halved(rt, "first coefficient positive", &a, &b)?;
    let two = [2, 1, 0];
    let five = [1, 5, 0];
    let first = [1, 0];
    // x: 2, K = 1, M = 0, and g = 2 does not divide 1.
    single(rt, "equation without a point", &two, &five, 2, &first)?;
    let none = [0, 1, 0];
    // x: 0, K = 1, M = 0, g = 0.
    single(rt, "equation without a variable", &none, &five, 2, &first)
}

// The paper's case 5, A 2x = 1 and B empty, and its exchange; and case 6.
fn empty_sides(rt: &impl Print) -> io::Result<()> {
    let row = [2, 1, 0];
    let empty: [i64; 0] = [];
    let p = [1];
    let mut f = [7];
    // x: 2, K = 1. x is A-local, so M = 2, which does not divide 1.
    line(rt, "case 5", &problem(1, 1, 0, &row, &empty), 2, &p, &mut f)?;
    // No rows: K = 0, M = 0.
    line(
        rt,
        "case 5, exchanged",
        &problem(1, 0, 1, &empty, &row),
        2,
        &p,
        &mut f,
    )?;
    let opposite = [1, -1];
    // x: 1, K = 0, M = 0.
    zero_or_one(rt, "case 6", 2, &opposite)
}

// Numbers at the ends of their ranges.
fn ends(rt: &impl Print) -> io::Result<()> {
    let mut f = [7, 7, 7];
    let a = [1, -1000000, 0, 0, 0];
    let b = [1, 0, 1000000, 1, 0];
    let p = [1, -1];
    // x: 1, y: -1000000, K = 0, M = 1000000.
    line(
        rt,
        "end of coefficients",
        &problem(3, 1, 1, &a, &b),
        1000000,
        &p,
        &mut f,
    )?;
    let least = [1, -1000000, 0];
    let largest = [1, 1000000, 0];
    let widest = [1000000, -1000000];
    // x: 10^6, K = -10^12, M = 0: x = -10^6, by g = 10^6. q = 3 does not divide the sum -2 x 10^12.
    single(rt, "end of constants", &least, &largest, 3, &widest)?;
    let before = [1, -1, 1000000];
    let zero = [1, 0, 1000000];
    // x: 1, K = -1, M = 1000000.
    single(rt, "end of moduli", &before, &zero, 1000000, &p)
}

// Numbers that need more than 32 bits: A x + 1000000y = 1000000, -x + 999999y = -1000000; B x = 1.
fn large(rt: &impl Print) -> io::Result<()> {
    let a = [1, 1000000, 1000000, 0, -1, 999999, -1000000, 0];
    let b = [1, 0, 1, 0];
    let p = [999999, 1000000, 1];
    let mut f = [7, 7];
    // x: -1, y: 999999000000 twice, K = 999999000000 - 1000000000000 = -1000000, M = 1999998000000: -x ≡ -1000000 (mod M).
    line(rt, "large", &problem(2, 2, 1, &a, &b), 2, &p, &mut f)
}

// Twelve variables, and twelve rows.
fn most(rt: &impl Print) -> io::Result<()> {
    let mut f = [7, 7, 7, 7, 7, 7, 7, 7, 7, 7, 7, 7];
    let a = [-2, 0, 0, 0, 0, 0, 0, 0, 0, 0, 0, 1, 0, 0];
    let b = [0, -2, 0, 0, 0, 0, 0, 0, 0, 0, 0, 1, 1, 0];
    let p = [1, 1];
    // x12: 1, x1: -2, K = 0. x1 is A-local, so M = 2.
    line(
        rt,
        "12 variables",
        &problem(12, 1, 1, &a, &b),
        2,
        &p,
        &mut f,
    )?;
    let first = [2, 1, 0];
    let others = [0; 33];
    let chosen = [1, 0, 0, 0, 0, 0, 0, 0, 0, 0, 0, 0];
    let mut g = [7];
    // x: 2, K = 1. x is A-local, so M = 2, which does not divide 1.
    line(
        rt,
        "12 rows",
        &problem(1, 1, 11, &first, &others),
        2,
        &chosen,
        &mut g,
    )
}

// Refusal 1 by the counts. The sides have the lengths that the counts ask for. The rest is right, except that a problem without
// rows has no vector that could be.
fn counts(rt: &impl Print) -> io::Result<()> {
    let empty: [i64; 0] = [];
    let mut nothing: [i64; 0] = [];
    let zero = [0, 0];
    let one = [1, 0];
    let half = [1, 1];
    line(
        rt,
        "n is 0",
        &problem(0, 1, 1, &zero, &one),
        2,
        &half,
        &mut nothing,
    )?;
    let mut f = [7];
    line(
        rt,
        "no rows",
        &problem(1, 0, 0, &empty, &empty),
        2,
        &empty,
        &mut f,
    )?;
    let row = [0, 1, 0];
    let twelve = [0; 36];
    let first = [1, 0, 0, 0, 0, 0, 0, 0, 0, 0, 0, 0, 0];
    line(
        rt,
        "13 rows",
        &problem(1, 1, 12, &row, &twelve),
        2,
        &first,
        &mut f,
    )
}

fn thirteen_variables(rt: &impl Print) -> io::Result<()> {
    let a = [1, 0, 0, 0, 0, 0, 0, 0, 0, 0, 0, 0, 0, 0, 0];
    let b = [1, 0, 0, 0, 0, 0, 0, 0, 0, 0, 0, 0, 0, 1, 0];
    let p = [1, 1];
    let mut f = [7, 7, 7, 7, 7, 7, 7, 7, 7, 7, 7, 7, 7];
    line(rt, "n is 13", &problem(13, 1, 1, &a, &b), 2, &p, &mut f)
}

// Refusal 1 by counts whose sums and products are small modulo 2^64.
fn wrapped_counts(rt: &impl Print) -> io::Result<()> {
    let empty: [i64; 0] = [];
    let zero = [0];
    let p = [1];
    let mut f = [7];
    let n: usize = 18446744073709551615;
    // 2^64 - 1 variables: a row has 1 number.
    line(
        rt,
        "n + 2 wraps",
        &problem(n, 1, 0, &zero, &empty),
        2,
        &p,
        &mut f,
    )?;
    let row = [0, 0, 1, 0];
    let mut g = [7, 7];
    let ma: usize = 13835058055282163712;
    let mb: usize = 4611686018427387905;
    // 3 x 2^62 and 2^62 + 1 rows: together 1, of 0 and 4 numbers.
    line(
        rt,
        "rows wrap",
        &problem(2, ma, mb, &empty, &row),
        2,
        &p,
        &mut g,
    )
}

// Refusal 1 by a side's length.
fn lengths(rt: &impl Print) -> io::Result<()> {
    let a = [1, -2, 0, 0, 0];
    let b = [1, 0, -2, 1, 0];
    let short = [1, -2, 0, 0];
    let long = [1, 0, -2, 1, 0, 0];
    halved(rt, "A one number short", &short, &b)?;
    halved(rt, "B one number long", &a, &long)
}

// Refusal 2, and what a refusal leaves in the run.
fn result_runs(rt: &impl Print) -> io::Result<()> {
    let a = [1, -2, 0, 0, 0];
    let b = [1, 0, -2, 1, 0];
    let p = [1, 1];
    let mut short = [7, -8];
    line(
        rt,
        "run one number short",
        &problem(3, 1, 1, &a, &b),
        2,
        &p,
        &mut short,
    )?;
    holds(rt, "run after it", &short)?;
    let mut long = [7, -8, 9, 10];
    line(
        rt,
        "run one number long",
        &problem(3, 1, 1, &a, &b),
        2,
        &p,
        &mut long,
    )?;
    holds(rt, "run after it", &long)?;
    let twice = [2, 2];
    let mut f = [7, -8, 9];
    line(
        rt,
        "run at refusal 7",
        &problem(3, 1, 1, &a, &b),
        2,
        &twice,
        &mut f,
    )?;
    holds(rt, "run after it", &f)
}

// Refusal 3. The sums are even and the constants' sum is odd, so the vector is right.
fn ranges(rt: &impl Print) -> io::Result<()> {
    let a = [1, -2, 0, 0, 0];
    let b = [1, 0, -2, 1, 0];
    let coefficient = [1, -1000002, 0, 0, 0];
    halved(rt, "coefficient too small", &coefficient, &b)?;
    let least = [1, -9223372036854775808, 0, 0, 0];
    halved(rt, "least coefficient", &least, &b)?;
    let constant = [1, 0, -2, 1000001, 0];
    halved(rt, "constant too large", &a, &constant)?;
    let negative = [1, -2, 0, 0, -2];
    halved(rt, "modulus negative", &negative, &b)?;
    let modulus = [1, 0, -2, 1, 1000002];
    halved(rt, "modulus too large", &a, &modulus)
}

// Refusal 4. The sum of the coefficients is 0, and that of the constants -1, which no number but 1 and -1 divides.
fn denominators(rt: &impl Print) -> io::Result<()> {
    let opposite = [1, -1];
    zero_or_one(rt, "q is 0", 0, &opposite)?;
    zero_or_one(rt, "q is negative", -2, &opposite)?;
    zero_or_one(rt, "q too large", 1000001, &opposite)?;
    let long = [1, -1, 0];
    zero_or_one(rt, "vector one number long", 2, &long)?;
    let short = [1];
    zero_or_one(rt, "vector one number short", 2, &short)
}

// Refusal 5. The sum of the coefficients is even, and that of the constants odd.
fn numerators(rt: &impl Print) -> io::Result<()> {
    let large = [1000001, 1];
    zero_or_one(rt, "numerator too large", 2, &large)?;
    let small = [-1, -1000001];
    zero_or_one(rt, "numerator too small", 2, &small)
}

// Refusal 6. The sum of the constants is 1 or -1, which 2 does not divide.
fn divisions(rt: &impl Print) -> io::Result<()> {
    let second = [0, 1];
    // The sum at x is 1.
    parity(rt, "column sum not divided", 2, &second)?;
    let a = [1, 0, 3];
    let b = [1, 1, 0];
    let opposite = [1, -1];
    // p x l is 3.
    single(rt, "product in A not divided", &a, &b, 2, &opposite)?;
    let c = [1, 0, 0];
    let d = [1, 1, 3];
    // p x l is -3.
    single(rt, "product in B not divided", &c, &d, 2, &opposite)
}

// Refusal 7, the paper's case 7. The sums of the constants are 2, 0 and 1.
fn constants(rt: &impl Print) -> io::Result<()> {
    let doubled = [2, 2];
    parity(rt, "case 7, p 2, 2", 2, &doubled)?;
    let zero = [0, 0];
    parity(rt, "case 7, p 0, 0", 2, &zero)?;
    let half = [1, 1];
    parity(rt, "case 7, q 1", 1, &half)
}

// Each of these has two refusals, and is given the earlier.
fn order_of_runs(rt: &impl Print) -> io::Result<()> {
    let b = [1, 0, -2, 1, 0];
    let p = [1, 1];
    let mut f = [7, 7];
    let short = [1, -2, 0, 0];
    line(
        rt,
        "1 before 2",
        &problem(3, 1, 1, &short, &b),
        2,
        &p,
        &mut f,
    )?;
    let outside = [1, -1000002, 0, 0, 0];
    line(
        rt,
        "2 before 3",
        &problem(3, 1, 1, &outside, &b),
        2,
        &p,
        &mut f,
    )
}

fn order_of_vectors(rt: &impl Print) -> io::Result<()> {
    let outside = [1, 1000001, 0];
    let b = [1, 1, 0];
    let opposite = [1, -1];
    single(rt, "3 before 4", &outside, &b, 0, &opposite)?;
    let large = [1000001, -1000001];
    zero_or_one(rt, "4 before 5", 0, &large)?;
    let odd = [0, 1000001];
    zero_or_one(rt, "5 before 6", 2, &odd)?;
    let first = [1, 0];
    // The paper's case 7: the sum at x is 1, and that of the constants 0.
    parity(rt, "6 before 7", 2, &first)
}

fn examples(rt: &impl Print) -> io::Result<()> {
    every_integer(rt)?;
    partial_interpolant(rt)?;
    even_and_odd(rt)?;
    both_rows(rt)?;
    one_modulus(rt)?;
    contradiction(rt)?;
    different_moduli(rt)?;
    one_common_modulus(rt)
}

fn facts(rt: &impl Print) -> io::Result<()> {
    choices(rt)?;
    seeming(rt)?;
    seeming_modulo_eight(rt)?;
    equations(rt)?;
    empty_sides(rt)?;
    ends(rt)?;
    large(rt)?;
    most(rt)
}

fn shapes(rt: &impl Print) -> io::Result<()> {
    counts(rt)?;
    thirteen_variables(rt)?;
    wrapped_counts(rt)?;
    lengths(rt)?;
    result_runs(rt)
}

fn refusals(rt: &impl Print) -> io::Result<()> {
    ranges(rt)?;
    denominators(rt)?;
    numerators(rt)?;
    divisions(rt)?;
    constants(rt)?;
    order_of_runs(rt)?;
    order_of_vectors(rt)
}

// ---- The search

// How a search ended, and in how many steps.
#[derive(Clone, Copy)]
struct Ended(search::Answer);

impl fmt::Display for Ended {
    fn fmt<W: fmt::Write>(&self, f: &mut fmt::Formatter<W>) -> fmt::Result {
        match self.0.outcome {
            Outcome::Unfinished => write!(f, "unfinished"),
            Outcome::TooLarge => write!(f, "too large"),
            Outcome::Refuted(q) => write!(f, "refuted by q {q}"),
            Outcome::Solved => write!(f, "solved"),
        }?;
        write!(f, " in {}", self.0.steps)
    }
}

// A line with the outcome, the count and what both runs then hold.
fn searched(
    rt: &impl Print,
    name: &str,
    problem: &Problem,
    budget: u32,
    vector: &mut [i64],
    point: &mut [i64],
) -> io::Result<()> {
    match search::search(problem, budget, vector, point) {
        Ok(answer) => print!(rt; "{name}: {}", Ended(answer))?,
        Err(refusal) => print!(rt; "{name}: refused: {}", refusal.number())?,
    }
    println!(rt; "; vector{}; point{}", Numbers(vector), Numbers(point))
}

// The paper's case 8: case 2 is refuted in 4 steps, by q 2 and p -1, 1.
fn case_8(rt: &impl Print, name: &str, budget: u32) -> io::Result<()> {
    let a = [1, -2, 0, 0, 0];
    let b = [1, 0, -2, 1, 0];
    let mut vector = [7; 2];
    let mut point = [7; 3];
    searched(
        rt,
        name,
        &problem(3, 1, 1, &a, &b),
        budget,
        &mut vector,
        &mut point,
    )
}

// The paper's case 9: x = 1000000 and y = 1000000 x, whose point does not fit.
fn case_9(rt: &impl Print, name: &str, budget: u32) -> io::Result<()> {
    let a = [1, 0, 1000000, 0, -1000000, 1, 0, 0];
    let b: [i64; 0] = [];
    let mut vector = [7; 2];
    let mut point = [7; 2];
    searched(
        rt,
        name,
        &problem(2, 2, 0, &a, &b),
        budget,
        &mut vector,
        &mut point,
    )
}

fn searches(rt: &impl Print) -> io::Result<()> {
    case_8(rt, "case 8, budget 0", 0)?;
    case_8(rt, "case 8, budget 3", 3)?;
    case_8(rt, "case 8, budget 4", 4)?;
    case_8(rt, "case 8, any budget", 4294967295)?;
    case_9(rt, "case 9, budget 1", 1)?;
    case_9(rt, "case 9, budget 2", 2)
}

fn main(rt: HostRuntime) -> io::Result<()> {
    examples(&rt)?;
    facts(&rt)?;
    shapes(&rt)?;
    refusals(&rt)?;
    searches(&rt)
}
