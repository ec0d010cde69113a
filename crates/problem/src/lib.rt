// A problem whose counts and runs come from anywhere, the refusals of every call, and the rows of a problem that is well formed.
#![tactic(auto)]

ghost use Rattle.std.specs.Prelude.{◌≡◌, ◌+◌, ◌*◌, ◌<◌, ◌≤◌, nat_abs, IfOk};
ghost use Rattle.integers.specs.Range.{within};
ghost use Rattle.integers.specs.Below.{all_below};
ghost use Rattle.integers.specs.Run.{at};
ghost use Rattle.problem.specs.Rows.{side_of, number_in};
ghost use Rattle.problem.specs.WellFormed.{shape, row_in_range, in_ranges, well_formed, WellFormed, Ranges, million};
ghost use Rattle.problem.specs.Occurrence.{counts};
ghost use Rattle.problem.specs.Refusal.{number_of, refusal_in, problem_refusal};
ghost use Rattle.problem.specs.Answer.{told, rows_answer};
ghost use Rattle.problem.specs.Lent.{lent, Lent};

// Why a call is refused: the first of these whose case it is.
#[derive(Clone, Copy, Debug, PartialEq, Eq)]
pub enum Refusal {
    // A count or a side's length is not as it should be.
    WrongShape,
    // A run that is lent for results has not its length.
    WrongRun,
    // A number of a row is out of its range.
    RowOutOfRange,
    // The vector has not a numerator for each row, or its denominator is out of range.
    WrongVector,
    // A numerator is out of range.
    NumeratorOutOfRange,
    // The denominator does not divide a column sum, or a weight times its row's modulus.
    SumNotDivided,
    // The denominator divides the sum of the constants.
    ConstantsDivided,
    // A number of the search is above its bound.
    TooLarge,
    // A line is no frame.
    NoFrame,
}

impl Refusal {
    // The paper's number.
    pub fn number(self) -> u8
        ensures { result ≡ number_of self }
    {
        match self {
            Refusal::WrongShape => 1,
            Refusal::WrongRun => 2,
            Refusal::RowOutOfRange => 3,
            Refusal::WrongVector => 4,
            Refusal::NumeratorOutOfRange => 5,
            Refusal::SumNotDivided => 6,
            Refusal::ConstantsDivided => 7,
            Refusal::TooLarge => 8,
            Refusal::NoFrame => 9,
        }
    }
}

// A problem as it is lent: n variables, the counts of A's and of B's rows, and the numbers of the rows of each side.
#[derive(Clone, Copy)]
pub struct Problem<'a> {
    pub n: usize,
    pub ma: usize,
    pub mb: usize,
    pub a: &'a [i64],
    pub b: &'a [i64],
}

impl<'a> Problem<'a> {
    // Whether the counts and the lengths of the two sides are as they should be. A length is computed only of counts that are known
    // to be small.
    pub fn has_shape(&self) -> bool
        ensures { result ≡ lent shape self.now }
    {
        let Problem { n, ma, mb, a, b } = *self;
        if n < 1 || 12 < n || 12 < ma || 12 < mb {
            return false;
        }
        let m = ma + mb;
        1 <= m && m <= 12 && a.len() == ma * (n + 2) && b.len() == mb * (n + 2)
    }

    // Whether the problem is well formed.
    #[tactic(auto, unfolding(crate::specs::WellFormed::well_formed))]
    pub fn is_well_formed(&self) -> bool
        ensures { result ≡ lent well_formed self.now }
    {
        self.has_shape() && in_ranges(self.n, self.ma, self.a) && in_ranges(self.n, self.mb, self.b)
    }

    // The rows, if the problem is well formed and the runs that are lent for results `fit` it; else the first refusal.
    #[tactic(auto, unfolding(crate::specs::Refusal::problem_refusal))]
    pub fn rows(&self, fit: bool) -> Result<Rows<'a>, Refusal>
        ensures value { told (λ rows. rows.problem) result ≡ rows_answer self.now fit }
        ensures rows { IfOk result (λ rows. rows.problem ≡ self.now) }
        ensures refusal { refusal_in result ≡ lent problem_refusal self.now fit }
    {
        if !self.has_shape() {
            return Err(Refusal::WrongShape);
        }
        if !fit {
            return Err(Refusal::WrongRun);
        }
        if !self.is_well_formed() {
            return Err(Refusal::RowOutOfRange);
        }
        Ok(Rows { problem: *self })
    }
}

// Whether each row of a side is in its ranges.
fn in_ranges(n: usize, m: usize, run: &[i64]) -> bool
    requires { (n ≤ 12) × (m ≤ 12) }
    ensures { result ≡ in_ranges n (side_of n m run.now) }
{
    (0..m).all(|i| row_in_range(n, m, run, i))
}

// Whether row i of a side is in its ranges.
fn row_in_range(n: usize, m: usize, run: &[i64], i: usize) -> bool
    requires { (n ≤ 12) × (m ≤ 12) × (i < m) }
    ensures { result ≡ row_in_range n (side_of n m run.now) i }
{
    let start = i * (n + 2);
    let modulus = integers::at(run, start + n + 1);
    are_coefficients(run, start, n)
        && integers::within(1000000, integers::at(run, start + n))
        && integers::within(1000000, modulus)
        && !integers::is_negative(modulus)
}

// Whether some numbers of a run, from a place on, are in the range of coefficients.
fn are_coefficients(run: &[i64], start: usize, count: usize) -> bool
    requires { (start ≤ 168) × (count ≤ 12) }
    ensures { result ≡ all_below count (λ j. within million (at run.now (start + j))) }
{
    (0..count).all(|j| integers::within(1000000, integers::at(run, start + j)))
}

// The rows of a problem that is well formed.
#[derive(Clone, Copy)]
pub struct Rows<'a> {
    pub problem: Problem<'a>,
    ghost well_formed: { Lent WellFormed problem },
}

impl<'a> Rows<'a> {
    // A's rows.
    pub fn a(&self) -> Side<'a>
        ensures n { result.n ≡ self.now.problem.n }
        ensures m { result.m ≡ self.now.problem.ma }
        ensures run { result.run.now ≡ self.now.problem.a.now }
    {
        Side {
            n: self.problem.n,
            m: self.problem.ma,
            run: self.problem.a,
        }
    }

    // B's rows.
    pub fn b(&self) -> Side<'a>
        ensures n { result.n ≡ self.now.problem.n }
        ensures m { result.m ≡ self.now.problem.mb }
        ensures run { result.run.now ≡ self.now.problem.b.now }
    {
        Side {
            n: self.problem.n,
            m: self.problem.mb,
            run: self.problem.b,
        }
    }
}

// One side of a problem that is well formed: m rows of n + 2 numbers, each in its range.
#[derive(Clone, Copy)]
pub struct Side<'a> {
    pub n: usize,
    pub m: usize,
    pub run: &'a [i64],
    ghost few_n: { n ≤ 12 },
    ghost few_m: { m ≤ 12 },
    ghost ranges: { Ranges n (side_of n m run.now) },
}

impl Side<'_> {
    // The number in a column of a row: a coefficient below n, the constant at n, the modulus at n + 1; 0 where there is none.
    pub fn number(&self, row: usize, column: usize) -> i64
        ensures value { result ≡ number_in self.now.n self.now.m self.now.run.now row column }
        ensures inside { row < self.now.m → column < self.now.n + 2 → result ≡ at self.now.run.now (row * (self.now.n + 2) + column) }
        ensures bound { nat_abs result ≤ million }
    {
        if row < self.m && column < self.n + 2 {
            integers::at(self.run, row * (self.n + 2) + column)
        } else {
            0
        }
    }
}

// Whether a coefficient makes its variable occur in a row with this modulus: whether the modulus does not divide it.
pub fn counts(modulus: i64, coefficient: i64) -> bool
    ensures { result ≡ counts modulus coefficient }
{
    !integers::divides(modulus, coefficient)
}
