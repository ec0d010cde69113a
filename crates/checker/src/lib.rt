// A vector is accepted exactly when it refutes, and an accepted vector gives the interpolant of its problem.
#![tactic(auto)]

ghost use Rattle.std.specs.Prelude.{◌≡◌, ℕ, ◌+◌, ◌*◌, ◌<◌, ◌≤◌, length, pos, nat_abs, ◌+ℤ◌, ◌*ℤ◌, ◌≤ℤ◌, IfOk};
ghost use Rattle.integers.specs.Range.{is_negative};
ghost use Rattle.integers.specs.Divisibility.{divides};
ghost use Rattle.integers.specs.Gcd.{gcd_from};
ghost use Rattle.integers.specs.Sum.{dot};
ghost use Rattle.integers.specs.Below.{all_below};
ghost use Rattle.integers.specs.Run.{at, tabulate};
ghost use Rattle.problem.specs.Rows.{rows_of};
ghost use Rattle.problem.specs.WellFormed.{million};
ghost use Rattle.problem.specs.Occurrence.{occurs};
ghost use Rattle.problem.specs.Refusal.{refusal_in};
ghost use Rattle.problem.specs.Lent.{lent};
ghost use Rattle.checker.specs.Refutation.{column_sum, numerator, is_vector, divides_sums, refusal};
ghost use Rattle.checker.specs.NormalForm.{first_nonzero};
ghost use Rattle.checker.specs.Answer.{interpolant_for, stated, judge_answer, judge_run};
ghost use Rattle.checker.specs.Code.{rows_in, numbers, weights, shared_sum, local_sum, largest, Small, fact_of, made_positive, finished, short_form};

use problem::{Problem, Refusal, Rows, Side};

// What `judge` answers of a vector that refutes, beside the coefficients of its interpolant.
#[derive(Clone, Copy, Debug, PartialEq, Eq)]
pub struct Fact {
    pub constant: i64,
    pub modulus: i64,
}

// Judges a vector: where q and the numerators p refute the two sides together, writes the interpolant's coefficients, and answers its
// constant and its modulus; else answers the first refusal, and leaves the run as it was.
pub fn judge(problem: &Problem, q: i64, p: &[i64], coeffs: &mut [i64]) -> Result<Fact, Refusal>
    ensures value { result ≡ lent judge_answer problem.now q p.now coeffs.old }
    ensures coeffs_after { coeffs.new ≡ lent judge_run problem.now q p.now coeffs.old }
{
    let weighed = accepted(problem, q, p, coeffs.len())?;
    Ok(weighed.interpolant(coeffs))
}

// ---- A refutation

// The weighed rows, if the vector refutes; else the first refusal of a call whose run for the coefficients is `long` long.
fn accepted<'a>(
    problem: &Problem<'a>,
    q: i64,
    p: &'a [i64],
    long: usize,
) -> Result<Weighed<'a>, Refusal>
    ensures weighed { IfOk result (λ w. (w.rows.problem ≡ problem.now) × (w.p.now ≡ p.now)) }
    ensures refusal { refusal_in result ≡ lent refusal problem.now q p.now long }
{
    let rows = problem.rows(long == problem.n)?;
    if !is_vector(problem.ma + problem.mb, q, p) {
        return Err(Refusal::WrongVector);
    }
    if !integers::all_within(1000000, p) {
        return Err(Refusal::NumeratorOutOfRange);
    }
    let weighed = Weighed { rows, p };
    if !weighed.divides_sums(q) {
        return Err(Refusal::SumNotDivided);
    }
    if integers::divides(q, weighed.total(problem.n)) {
        return Err(Refusal::ConstantsDivided);
    }
    Ok(weighed)
}

// Whether there is a numerator for each of m rows, and the denominator is in range.
fn is_vector(m: usize, q: i64, p: &[i64]) -> bool
    ensures { result ≡ is_vector m q p.now }
{
    p.len() == m && 0 < q && integers::within(1000000, q)
}

// The rows of a problem and the numerators of a vector, in range, which are their weights: A's first.
#[derive(Clone, Copy)]
struct Weighed<'a> {
    rows: Rows<'a>,
    p: &'a [i64],
    ghost long: { length p.now ≡ rows.problem.ma + rows.problem.mb },
    ghost in_range: { (i : ℕ) → nat_abs (at p.now i) ≤ million },
}

impl<'a> Weighed<'a> {
    // A's rows with their weights.
    fn a(&self) -> WeighedSide<'a>
        ensures n { result.side.n ≡ self.now.rows.problem.n }
        ensures m { result.side.m ≡ self.now.rows.problem.ma }
        ensures run { result.side.run.now ≡ self.now.rows.problem.a.now }
        ensures weights { (i : ℕ) → i < self.now.rows.problem.ma → at result.weights.now i ≡ at self.now.p.now i }
    {
        WeighedSide {
            side: self.rows.a(),
            weights: &self.p[..self.rows.problem.ma],
        }
    }

    // B's rows with their weights.
    fn b(&self) -> WeighedSide<'a>
        ensures n { result.side.n ≡ self.now.rows.problem.n }
        ensures m { result.side.m ≡ self.now.rows.problem.mb }
        ensures run { result.side.run.now ≡ self.now.rows.problem.b.now }
        ensures weights { (i : ℕ) → at result.weights.now i ≡ weights self.now.p.now self.now.rows.problem.ma i }
    {
        WeighedSide {
            side: self.rows.b(),
            weights: &self.p[self.rows.problem.ma..],
        }
    }

    // Whether q divides each column's sum, and each product of a weight and its row's modulus.
    fn divides_sums(&self, q: i64) -> bool
        ensures { let P = self.now.rows.problem in result ≡ divides_sums P.n (lent rows_of P) q (numerator self.now.p.now) }
    {
        self.divides_columns(q) && self.a().divides_moduli(q) && self.b().divides_moduli(q)
    }

    // Whether q divides each column's sum.
    fn divides_columns(&self, q: i64) -> bool
        ensures { let P = self.now.rows.problem in result ≡ all_below P.n (λ j. divides q (column_sum (lent rows_of P) (numerator self.now.p.now) j)) }
    {
        (0..self.rows.problem.n).all(|j| integers::divides(q, self.total(j)))
    }

    // The weighted sum of a column over all rows.
    fn total(&self, column: usize) -> i64
        requires { column ≤ self.now.rows.problem.n }
        ensures { let P = self.now.rows.problem in result ≡ dot P.ma (numerator self.now.p.now) (numbers P.n P.a.now column) +ℤ dot P.mb (weights self.now.p.now P.ma) (numbers P.n P.b.now column) }
    {
        self.a().column_sum(column) + self.b().column_sum(column)
    }

    // The interpolant: writes its coefficients, and answers its constant and its modulus.
    fn interpolant(&self, coeffs: &mut [i64]) -> Fact
        requires { length coeffs.old ≡ self.now.rows.problem.n }
        ensures value { result ≡ stated (lent interpolant_for self.now.rows.problem self.now.p.now) }
        ensures coeffs_after { coeffs.new ≡ tabulate (length coeffs.old) (lent interpolant_for self.now.rows.problem self.now.p.now).coef }
    {
        let local = self.shared_sums(coeffs);
        let modulus = self.a().moduli_gcd(local);
        let constant = self.a().column_sum(self.rows.problem.n);
        normalise(coeffs, constant, modulus)
    }

    // Writes A's column sums at the shared variables and 0 at the others, and answers the gcd of those at the A-local ones.
    fn shared_sums(&self, coeffs: &mut [i64]) -> u64
        requires { length coeffs.old ≡ self.now.rows.problem.n }
        ensures result_value { pos result ≡ gcd_from (pos 0) (length coeffs.old) (lent local_sum self.now.rows.problem self.now.p.now) }
        ensures coeffs_after { coeffs.new ≡ tabulate (length coeffs.old) (lent shared_sum self.now.rows.problem self.now.p.now) }
    {
        let mut local = 0;
        for (j, place) in coeffs.iter_mut().enumerate() {
            let parts = self.parts(j);
            *place = parts.shared;
            local = integers::gcd(local, integers::magnitude(parts.local));
        }
        local
    }

    // A's sum of a variable's column, as a shared and as an A-local variable's. A sum of 0 is the same for all, wherever its variable
    // occurs.
    fn parts(&self, j: usize) -> Parts
        requires { j < self.now.rows.problem.n }
        ensures shared { result.shared ≡ lent shared_sum self.now.rows.problem self.now.p.now j }
        ensures local { result.local ≡ lent local_sum self.now.rows.problem self.now.p.now j }
    {
        let a = self.a();
        let sum = a.column_sum(j);
        if integers::is_zero(sum) {
            return Parts {
                shared: 0,
                local: 0,
            };
        }
        match (occurs(&a.side, j), occurs(&self.rows.b(), j)) {
            (true, true) => Parts {
                shared: sum,
                local: 0,
            },
            (true, false) => Parts {
                shared: 0,
                local: sum,
            },
            (false, _) => Parts {
                shared: 0,
                local: 0,
            },
        }
    }
}

// A column's sum over A as a shared variable's and as an A-local one's: one of them is 0.
#[derive(Clone, Copy)]
struct Parts {
    shared: i64,
    local: i64,
}

// One side and the weights of its rows.
#[derive(Clone, Copy)]
struct WeighedSide<'a> {
    side: Side<'a>,
    weights: &'a [i64],
    ghost in_range: { (i : ℕ) → nat_abs (at weights.now i) ≤ million },
}

impl WeighedSide<'_> {
    // A number of row i times the row's weight.
    fn product(&self, i: usize, column: usize) -> i64
        requires { (i < self.now.side.m) × (column ≤ self.now.side.n + 1) }
        ensures value { result ≡ at self.now.weights.now i *ℤ numbers self.now.side.n self.now.side.run.now column i }
        ensures bound { nat_abs result ≤ million * million }
    {
        integers::at(self.weights, i) * self.side.number(i, column)
    }

    // The weighted sum of a column.
    fn column_sum(&self, column: usize) -> i64
        requires { column ≤ self.now.side.n }
        ensures value { result ≡ dot self.now.side.m (at self.now.weights.now) (numbers self.now.side.n self.now.side.run.now column) }
        ensures bound { nat_abs result ≤ largest }
    {
        let mut sum: i64 = 0;
        for i in 0..self.side.m {
            sum += self.product(i, column);
        }
        sum
    }

    // Whether q divides each product of a weight and its row's modulus.
    fn divides_moduli(&self, q: i64) -> bool
        ensures { result ≡ all_below self.now.side.m (λ i. divides q (at self.now.weights.now i *ℤ (rows_in self.now.side).modulus i)) }
    {
        (0..self.side.m).all(|i| integers::divides(q, self.product(i, self.side.n + 1)))
    }

    // The gcd of g and of each product of a weight and its row's modulus.
    fn moduli_gcd(&self, g: u64) -> u64
        ensures { pos result ≡ gcd_from (pos g) self.now.side.m (λ i. at self.now.weights.now i *ℤ (rows_in self.now.side).modulus i) }
    {
        let mut common = g;
        for i in 0..self.side.m {
            common = integers::gcd(
                common,
                integers::magnitude(self.product(i, self.side.n + 1)),
            );
        }
        common
    }
}

// Whether variable j occurs in a side: whether its coefficient counts in some row.
fn occurs(side: &Side, j: usize) -> bool
    requires { j < side.now.n }
    ensures { result ≡ occurs (rows_in side.now) j }
{
    (0..side.m).any(|i| problem::counts(side.number(i, side.n + 1), side.number(i, j)))
}

// ---- The normal form

// Brings a fact to its normal form.
fn normalise(coeffs: &mut [i64], constant: i64, modulus: u64) -> Fact
    requires { Small largest (length coeffs.old) (fact_of coeffs.old constant (pos modulus)) }
    ensures value { result ≡ stated (short_form (length coeffs.old) (fact_of coeffs.old constant (pos modulus))) }
    ensures coeffs_after { coeffs.new ≡ tabulate (length coeffs.old) (short_form (length coeffs.old) (fact_of coeffs.old constant (pos modulus))).coef }
{
    let g = common_factor(coeffs, modulus);
    let divisor = g as i64;
    if !integers::divides(divisor, constant) {
        coeffs.fill(0);
        return Fact {
            constant: 1,
            modulus: 0,
        };
    }
    if g == 0 {
        coeffs.fill(0);
        return Fact {
            constant: 0,
            modulus: 0,
        };
    }
    change_all(coeffs, |x| x / divisor);
    finish(coeffs, constant / divisor, modulus / g)
}

// Brings a fact without common factor to its normal form: by its sign, or by residues.
fn finish(coeffs: &mut [i64], constant: i64, modulus: u64) -> Fact
    requires { Small largest (length coeffs.old) (fact_of coeffs.old constant (pos modulus)) }
    ensures value { result ≡ stated (finished (length coeffs.old) (fact_of coeffs.old constant (pos modulus))) }
    ensures coeffs_after { coeffs.new ≡ tabulate (length coeffs.old) (finished (length coeffs.old) (fact_of coeffs.old constant (pos modulus))).coef }
{
    match modulus {
        0 => make_positive(coeffs, constant),
        1 => {
            coeffs.fill(0);
            Fact {
                constant: 0,
                modulus: 0,
            }
        }
        _ => {
            let modulus = modulus as i64;
            change_all(coeffs, |x| x.rem_euclid(modulus));
            Fact {
                constant: constant.rem_euclid(modulus),
                modulus,
            }
        }
    }
}

// Makes the first nonzero coefficient of an equality positive.
fn make_positive(coeffs: &mut [i64], constant: i64) -> Fact
    requires { Small largest (length coeffs.old) (fact_of coeffs.old constant (pos 0)) }
    ensures value { result ≡ stated (made_positive (length coeffs.old) (fact_of coeffs.old constant (pos 0))) }
    ensures coeffs_after { coeffs.new ≡ tabulate (length coeffs.old) (made_positive (length coeffs.old) (fact_of coeffs.old constant (pos 0))).coef }
{
    if !first_is_negative(coeffs) {
        return Fact {
            constant,
            modulus: 0,
        };
    }
    change_all(coeffs, |x| -x);
    Fact {
        constant: -constant,
        modulus: 0,
    }
}

// The gcd of a modulus and of all coefficients.
fn common_factor(coeffs: &[i64], modulus: u64) -> u64
    ensures { pos result ≡ gcd_from (pos modulus) (length coeffs.now) (at coeffs.now) }
{
    let mut common = modulus;
    for c in coeffs {
        common = integers::gcd(common, integers::magnitude(*c));
    }
    common
}

// Whether the first coefficient that is not 0 is negative.
fn first_is_negative(coeffs: &[i64]) -> bool
    ensures { result ≡ is_negative (first_nonzero (length coeffs.now) (at coeffs.now)) }
{
    for c in coeffs {
        if !integers::is_zero(*c) {
            return integers::is_negative(*c);
        }
    }
    false
}

// Changes each number of a run.
fn change_all<F: Fn(i64) -> i64>(run: &mut [i64], change: F)
    requires { (j : ℕ) → j < length run.old → F.pre change (at run.old j) }
    ensures { (j : ℕ) → j < length run.old → F.post change (at run.old j) (at run.new j) }
{
    for x in run.iter_mut() {
        *x = change(*x);
    }
}
