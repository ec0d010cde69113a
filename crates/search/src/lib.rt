// The search: the paper's machine, one step at a time.
#![tactic(auto)]

ghost use Rattle.std.specs.Prelude.{◌≡◌, true, false, not, cond, ◌&&◌, ℕ, ◌+◌, ◌*◌, ◌-◌, ◌<◌, ◌≤◌, ◌^◌, eqb, ltb, get_or, set, length, replicate, ℤ, pos, nat_abs, neg_ℤ, ◌-ℤ◌, ◌*ℤ◌};
ghost use Rattle.std.specs.Int.Signed.{quot_z, rem_z};
ghost use Rattle.integers.specs.Range.{within};
ghost use Rattle.integers.specs.Gcd.{gcd_ℤ};
ghost use Rattle.integers.specs.NonDivisor.{non_divisor};
ghost use Rattle.integers.specs.Sum.{dot};
ghost use Rattle.integers.specs.Below.{all_below};
ghost use Rattle.integers.specs.Run.{at, tabulate};
ghost use Rattle.problem.specs.Rows.{rows_of};
ghost use Rattle.problem.specs.WellFormed.{million};
ghost use Rattle.problem.specs.Lent.{lent};
ghost use Rattle.search.specs.State.{own_column, upper_cell, start_table, start, z_of};
ghost use Rattle.search.specs.Table.{bound, cell, Bounded, less_times, subtract_column, subtraction_fits, swap_columns, negate_column};
ghost use Rattle.search.specs.Vector.{in_range, checked, unit_vector, column_sum, back_one, back_from, vector_of};
ghost use Rattle.search.specs.Step.{least, other, quotient, too_large, close_table, residual_of, place_of, point_of, passed, placed, closed, close_by, close_of, step_of};
ghost use Rattle.search.specs.Run.{after};
ghost use Rattle.search.specs.Answer.{written_by, search_reply, search_vector, search_point, table_reply, table_run};
ghost use Rattle.search.specs.Code.{largest_sum, last_count, entered_row, entered_diagonal, Sound, Backable, Backs, Solvable, Vectorable, Closable};

use problem::{Problem, Refusal, Rows};
use std::array;

// How a search ended, or that it did not.
#[derive(Clone, Copy, Debug, PartialEq, Eq)]
pub enum Outcome {
    Unfinished,
    TooLarge,
    Refuted(i64),
    Solved,
}

// The count of steps beside the outcome.
#[derive(Clone, Copy, Debug, PartialEq, Eq)]
pub struct Answer {
    pub steps: u32,
    pub outcome: Outcome,
}

// What of a problem stays through its search: variables, rows, columns in use, and the rows' constants.
#[derive(Clone, Copy)]
struct Given {
    n: usize,
    m: usize,
    width: usize,
    consts: [i64; 12],
}

// A search after some steps.
#[derive(Clone, Copy)]
struct State {
    given: Given,
    cells: [i64; 864],
    row: usize,
    count: usize,
    pivots: [usize; 12],
    zs: [i64; 12],
    steps: u32,
    outcome: Outcome,
    found: [i64; 12],
}

// Numerators and denominator.
#[derive(Clone, Copy)]
struct Vector {
    p: [i64; 12],
    q: i64,
}

// Searches with a budget of steps. A refuted problem's vector, or a solved one's point, is written into its run; all else is left
// as it was.
pub fn search(
    problem: &Problem,
    budget: u32,
    vector: &mut [i64],
    point: &mut [i64],
) -> Result<Answer, Refusal>
    ensures value { result ≡ lent search_reply problem.now budget vector.old point.old }
    ensures vector_after { vector.new ≡ lent search_vector problem.now budget vector.old point.old }
    ensures point_after { point.new ≡ lent search_point problem.now budget vector.old point.old }
{
    let rows = problem.rows(lengths_fit(problem, vector, point))?;
    let state = State::start(&rows).run(budget);
    match state.outcome {
        Outcome::Refuted(_) => write(&state.found, vector),
        Outcome::Solved => write(&state.found, point),
        Outcome::Unfinished | Outcome::TooLarge => {}
    }
    Ok(Answer {
        steps: state.steps,
        outcome: state.outcome,
    })
}

// Copies the table after a budget of steps, or after the last.
pub fn table_after(problem: &Problem, budget: u32, cells: &mut [i64]) -> Result<(), Refusal>
    ensures value { result ≡ lent table_reply problem.now budget cells.old }
    ensures cells_after { cells.new ≡ lent table_run problem.now budget cells.old }
{
    let rows = problem.rows(cells.len() == 864)?;
    let state = State::start(&rows).run(budget);
    write(&state.cells, cells);
    Ok(())
}

// Whether the vector has a place for each row, and the point one for each variable. The count of rows is not computed, since any
// numbers are taken.
fn lengths_fit(problem: &Problem, vector: &[i64], point: &[i64]) -> bool
    ensures { result ≡ eqb (length vector.now) (problem.now.ma + problem.now.mb) && eqb (length point.now) problem.now.n }
{
    vector.len().checked_sub(problem.ma) == Some(problem.mb) && point.len() == problem.n
}

// Writes as many numbers as the run is long.
fn write<const N: usize>(numbers: &[i64; N], run: &mut [i64])
    requires { length run.old ≤ N }
    ensures { run.new ≡ written_by true numbers.now run.old }
{
    run.copy_from_slice(&numbers[..run.len()]);
}

impl State {
    // The state before the first step.
    fn start(rows: &Rows) -> State
        ensures value { result ≡ start rows.now.problem.n (lent rows_of rows.now.problem) }
        ensures sound { Sound result }
        ensures no_steps { result.steps ≡ 0 }
    {
        let m = rows.problem.ma + rows.problem.mb;
        let mut state = State {
            given: Given {
                n: rows.problem.n,
                m,
                width: own_column(rows, m),
                consts: constants(rows),
            },
            cells: [0; 864],
            row: 0,
            count: 0,
            pivots: [0; 12],
            zs: [0; 12],
            steps: 0,
            outcome: Outcome::Unfinished,
            found: [0; 12],
        };
        enter_table(&mut state.cells, rows);
        state
    }

    // As many steps as the budget allows, or as there are.
    #[tactic(auto, using(crate::proofs::Laws::Run::after_none, crate::proofs::Laws::Run::after_more, crate::proofs::Laws::Run::after_stops))]
    fn run(mut self, budget: u32) -> State
        requires { Sound self × (self.steps ≡ 0) }
        ensures { result ≡ after budget self }
    {
        for _ in 0..budget {
            if !matches!(self.outcome, Outcome::Unfinished) {
                break;
            }
            self = self.step();
        }
        self
    }

    // One step takes the state and hands the next one back.
    fn step(mut self) -> State
        requires { Sound self × (self.steps < last_count) }
        ensures { result ≡ step_of self }
    {
        let (row, lo, hi) = (self.row, self.count, self.given.width);
        let first = least(&self.cells, row, lo, hi);
        let second = other(&self.cells, row, first, lo, hi);
        if second == first {
            return self.close(first);
        }
        let q = quotient(get(&self.cells, row, second), get(&self.cells, row, first));
        if !subtraction_fits(&self.cells, first, second, q) {
            return self.too_large();
        }
        subtract_column(&mut self.cells, first, second, q);
        self.steps += 1;
        self
    }

    // Close. The entry that becomes the pivot, and the residual, are known before any column is swapped.
    fn close(mut self, j: usize) -> State
        requires { Closable self j }
        ensures { result ≡ close_of self j }
    {
        let row = self.row;
        let e = get(&self.cells, row, j).abs();
        let r = self.residual();
        if !integers::divides(e, r) {
            return self.refute(j, e);
        }
        if row + 1 == self.given.m {
            return self.close_last(j, e, r);
        }
        if e == 0 {
            self.pass();
            return self;
        }
        let z = r / e;
        if !in_bound(z) {
            return self.too_large();
        }
        close_table(&mut self.cells, row, j, self.count);
        self.place(z);
        self
    }

    // The current row refutes, with pivot e or with none. Kept out of line, as the last row's end is, so that the other steps copy no
    // second table.
    #[inline(never)]
    fn refute(self, j: usize, e: i64) -> State
        requires { Closable self j }
        ensures { result ≡ close_by false self (close_table self.cells self.row j self.count) e }
    {
        let mut next = self;
        close_table(&mut next.cells, self.row, j, self.count);
        let Some(v) = next.vector(e) else {
            return self.too_large();
        };
        let found = v.p;
        State {
            steps: self.steps + 1,
            outcome: Outcome::Refuted(v.q),
            found,
            ..next
        }
    }

    // The last row closes, with pivot e that divides the residual r, or with neither.
    #[inline(never)]
    fn close_last(self, j: usize, e: i64, r: i64) -> State
        requires { Closable self j × (r ≡ residual_of self (close_table self.cells self.row j self.count)) }
        ensures { result ≡ close_by true self (close_table self.cells self.row j self.count) e }
    {
        let mut next = self;
        close_table(&mut next.cells, self.row, j, self.count);
        if e == 0 {
            next.pass();
            return self.closed(next);
        }
        let z = r / e;
        if !in_bound(z) {
            return self.too_large();
        }
        next.place(z);
        self.closed(next)
    }

    // The state `next` has closed a row of this one; the last row solves. Inlined, since else its answer is moved by `memmove`, a name that
    // the library for C would then need from outside.
    #[inline(always)]
    fn closed(self, next: State) -> State
        requires { Solvable next × (self.steps < last_count) }
        ensures { result ≡ closed self next }
    {
        if next.row != next.given.m {
            return next;
        }
        let found = next.point();
        if !integers::all_within(268435456, &found[..next.given.n]) {
            return self.too_large();
        }
        State {
            outcome: Outcome::Solved,
            found,
            ..next
        }
    }

    // The sum of entry times z over the pivot columns of a row: of the residual, and a place of the point.
    fn row_sum(&self, row: usize) -> i64
        requires { (row < 36) × (self.now.count ≤ 12) × Bounded self.now.cells × Bounded self.now.zs }
        ensures { result ≡ dot self.now.count (cell self.now.cells row) (z_of self.now) }
    {
        dot(self.count, |k| get(&self.cells, row, k), |k| self.zs[k])
    }

    // The residual of the current row.
    #[tactic(auto, unfolding(crate::specs::Step::residual_of))]
    fn residual(&self) -> i64
        requires places { (self.now.row < 12) × (self.now.count ≤ 12) }
        requires bounds { Bounded self.now.cells × Bounded self.now.zs × Bounded self.now.given.consts }
        ensures { result ≡ residual_of self.now self.now.cells }
    {
        self.given.consts[self.row] - self.row_sum(self.row)
    }

    // The point, 0 past the last variable.
    fn point(&self) -> [i64; 12]
        requires { Solvable self.now }
        ensures { result ≡ point_of self.now }
    {
        array::from_fn(|k| self.point_at(k))
    }

    // A place of the point.
    #[tactic(auto, unfolding(crate::specs::Step::place_of))]
    fn point_at(&self, k: usize) -> i64
        requires { Solvable self.now × (k < 12) }
        ensures { result ≡ cond (ltb k self.now.given.n) (place_of self.now k) (pos 0) }
    {
        if k < self.given.n {
            self.row_sum(12 + k)
        } else {
            0
        }
    }

    // The vector of the current row, which refutes with pivot e or with none, unless a number on the way to it is out of range.
    fn vector(&self, e: i64) -> Option<Vector>
        requires { Vectorable self.now self.now.cells }
        ensures { result ≡ checked (vector_of self.now self.now.cells e) }
    {
        let m = self.given.m;
        let first = unit_vector(self.row, e)?;
        let v = back_from(&self.cells, m, &self.pivots, self.count, first)?;
        if e != 0 {
            return Some(v);
        }
        let s = constant_sum(&v.p, &self.given.consts, m);
        checked(v.p, non_divisor(s))
    }

    // The step counts, and all else stays.
    #[tactic(auto, unfolding(crate::specs::Step::too_large))]
    fn too_large(self) -> State
        requires { self.steps < last_count }
        ensures { result ≡ too_large self }
    {
        State {
            steps: self.steps + 1,
            outcome: Outcome::TooLarge,
            ..self
        }
    }

    // The current row is closed without pivot.
    #[tactic(auto, unfolding(crate::specs::Step::passed))]
    fn pass(&mut self)
        requires { (self.old.row < 36) × (self.old.steps < last_count) }
        ensures { self.new ≡ passed self.old self.old.cells }
    {
        self.row += 1;
        self.steps += 1;
    }

    // The current row is closed with a pivot, whose z is known.
    #[tactic(auto, unfolding(crate::specs::Step::placed))]
    fn place(&mut self, z: i64)
        requires { (self.old.row < 36) × (self.old.count < 12) × (self.old.steps < last_count) }
        ensures { self.new ≡ placed self.old self.old.cells z }
    {
        self.pivots[self.count] = self.row;
        self.zs[self.count] = z;
        self.row += 1;
        self.count += 1;
        self.steps += 1;
    }
}

// ---- The columns that a step takes

// The nonzero column of smallest magnitude among lo..hi, the lowest on a tie; lo if all are zero.
fn least(cells: &[i64; 864], row: usize, lo: usize, hi: usize) -> usize
    requires { (row < 36) × (lo < 24) × (hi ≤ 24) }
    ensures { result ≡ least (cell cells.now row) lo (hi - lo) }
{
    let mut best = lo;
    for j in lo..hi {
        let x = get(cells, row, j).unsigned_abs();
        let y = get(cells, row, best).unsigned_abs();
        if x != 0 && (y == 0 || x < y) {
            best = j;
        }
    }
    best
}

// The first other nonzero column among lo..hi; the first column itself if there is none.
fn other(cells: &[i64; 864], row: usize, first: usize, lo: usize, hi: usize) -> usize
    requires { (row < 36) × (hi ≤ 24) }
    ensures { result ≡ other (cell cells.now row) first lo (hi - lo) }
{
    (lo..hi)
        .find(|j| *j != first && get(cells, row, *j) != 0)
        .unwrap_or(first)
}

// ---- The table

fn get(cells: &[i64; 864], i: usize, j: usize) -> i64
    requires { (i < 36) × (j < 24) }
    ensures { result ≡ cell cells.now i j }
{
    cells[i * 24 + j]
}

// What a subtraction puts into row i of the second column.
fn reduced(cells: &[i64; 864], first: usize, second: usize, q: i64, i: usize) -> i64
    requires places { (i < 36) × (first < 24) × (second < 24) }
    requires bounds { (nat_abs q ≤ bound) × (nat_abs (cell cells.now i first) ≤ bound) × (nat_abs (cell cells.now i second) ≤ bound) }
    ensures { result ≡ less_times (cell cells.now i second) q (cell cells.now i first) }
{
    get(cells, i, second) - q * get(cells, i, first)
}

// Whether no cell of the second column would be too large.
fn subtraction_fits(cells: &[i64; 864], first: usize, second: usize, q: i64) -> bool
    requires { (first < 24) × (second < 24) × (nat_abs q ≤ bound) × Bounded cells.now }
    ensures { result ≡ subtraction_fits cells.now first second q }
{
    (0..36).all(|i| in_bound(reduced(cells, first, second, q, i)))
}

fn subtract_column(cells: &mut [i64; 864], first: usize, second: usize, q: i64)
    requires { (first < 24) × (second < 24) × (nat_abs q ≤ bound) × Bounded cells.old }
    ensures { cells.new ≡ subtract_column cells.old first second q }
{
    for i in 0..36 {
        cells[i * 24 + second] = reduced(cells, first, second, q, i);
    }
}

fn swap_columns(cells: &mut [i64; 864], j: usize, k: usize)
    requires { (j < 24) × (k < 24) }
    ensures { cells.new ≡ swap_columns cells.old j k }
{
    for i in 0..36 {
        cells.swap(i * 24 + j, i * 24 + k);
    }
}

fn negate_column(cells: &mut [i64; 864], j: usize)
    requires { (j < 24) × Bounded cells.old }
    ensures { cells.new ≡ negate_column cells.old j }
{
    for i in 0..36 {
        cells[i * 24 + j] = -cells[i * 24 + j];
    }
}

// Brings the one nonzero column of a row to its pivot's place, and makes its entry positive.
#[tactic(auto, using(integers::proofs::Laws::Bits::stored_is), unfolding(crate::specs::Step::close_table, crate::specs::Step::swap_by, crate::specs::Step::negate_by))]
fn close_table(cells: &mut [i64; 864], row: usize, j: usize, r: usize)
    requires { (row < 36) × (j < 24) × (r < 24) × Bounded cells.old }
    ensures { cells.new ≡ close_table cells.old row j r }
{
    let e = get(cells, row, j);
    if e == 0 {
        return;
    }
    swap_columns(cells, j, r);
    if e < 0 {
        negate_column(cells, r);
    }
}

// ---- Sums

// The sum of x times y over the places below m.
fn dot<X: Fn(usize) -> i64, Y: Fn(usize) -> i64>(m: usize, x: X, y: Y) -> i64
    requires few { m ≤ 12 }
    requires first { (k : ℕ) → k < m → X.pre x k × ((r : ℤ) → X.post x k r → nat_abs r ≤ bound) }
    requires second { (k : ℕ) → k < m → Y.pre y k × ((r : ℤ) → Y.post y k r → nat_abs r ≤ bound) }
    ensures { (f g : ℕ → ℤ) → ((k : ℕ) (r : ℤ) → k < m → X.post x k r → r ≡ f k) → ((k : ℕ) (r : ℤ) → k < m → Y.post y k r → r ≡ g k) → result ≡ dot m f g }
{
    let mut sum: i64 = 0;
    for k in 0..m {
        sum += x(k) * y(k);
    }
    sum
}

// ---- The vector

fn unit_vector(i: usize, e: i64) -> Option<Vector>
    requires { i < 12 }
    ensures { result ≡ checked (unit_vector i e) }
{
    let mut p: [i64; 12] = [0; 12];
    p[i] = 1;
    if e == 0 {
        return checked(p, 1);
    }
    checked(p, e)
}

// The vector, if all of its numbers are in range.
fn checked(p: [i64; 12], q: i64) -> Option<Vector>
    ensures { result ≡ checked (record { p = p; q = q }) }
{
    if integers::all_within(1000000, &p) && integers::within(1000000, q) {
        Some(Vector { p, q })
    } else {
        None
    }
}

// Back over the pivot columns from the last to the first, as long as every number is in range.
fn back_from(
    cells: &[i64; 864],
    m: usize,
    pivots: &[usize; 12],
    count: usize,
    first: Vector,
) -> Option<Vector>
    requires { Backs cells.now m pivots.now count first × (in_range first ≡ true) }
    ensures { result ≡ checked (back_from count m cells.now (λ k. get_or pivots.now k 0) first) }
{
    let mut v = first;
    for k in (0..count).rev() {
        v = back_one(cells, m, pivots[k], k, v)?;
    }
    Some(v)
}

// One pivot column back. With g the gcd of s and e, the factor is e / g and the new numerator -s / g.
fn back_one(cells: &[i64; 864], m: usize, i: usize, k: usize, v: Vector) -> Option<Vector>
    requires { Backable cells.now m i k v }
    ensures { result ≡ checked (back_one m cells.now i k v) }
{
    let s = column_sum(cells, &v.p, m, k);
    let e = get(cells, i, k);
    let g = common_divisor(s, e);
    let f = e / g;
    let mut p = scaled(v.p, f);
    p[i] = -(s / g);
    let q = times(f, v.q);
    checked(p, q)
}

// The sum of numerator times entry in a column.
#[tactic(auto, unfolding(crate::specs::Vector::column_sum))]
fn column_sum(cells: &[i64; 864], p: &[i64; 12], m: usize, k: usize) -> i64
    requires { (k < 24) × (m ≤ 12) × Bounded cells.now × Bounded p.now }
    ensures { result ≡ column_sum m cells.now p.now k }
{
    dot(m, |i| p[i], |i| get(cells, i, k))
}

// The sum of numerator times constant.
fn constant_sum(p: &[i64; 12], d: &[i64; 12], m: usize) -> i64
    requires { (m ≤ 12) × Bounded p.now × Bounded d.now }
    ensures { result ≡ dot m (at p.now) (at d.now) }
{
    dot(m, |i| p[i], |i| d[i])
}

fn common_divisor(s: i64, e: i64) -> i64
    requires { (nat_abs s < 2 ^ 62) × (nat_abs e ≤ bound) }
    ensures { result ≡ gcd_ℤ s e }
{
    integers::gcd(s.unsigned_abs(), e.unsigned_abs()) as i64
}

// All numerators times f.
fn scaled(p: [i64; 12], f: i64) -> [i64; 12]
    requires { (nat_abs f ≤ bound) × Bounded p }
    ensures { result ≡ tabulate 12 (λ i. f *ℤ at p i) }
{
    array::from_fn(|i| times(f, p[i]))
}

fn times(x: i64, y: i64) -> i64
    requires { (nat_abs x ≤ bound) × (nat_abs y ≤ bound) }
    ensures { result ≡ x *ℤ y }
{
    x * y
}

// The smallest number from 2 up that does not divide s; 2 for 0, which every number divides.
fn non_divisor(s: i64) -> i64
    requires { nat_abs s < 2 ^ 62 }
    ensures { result ≡ pos (non_divisor s) }
{
    if s == 0 {
        return 2;
    }
    let mut q: i64 = 2;
    loop {
        if !integers::divides(q, s) {
            break q;
        }
        q += 1;
    }
}

// ---- Numbers

// Whether a cell or a z is not too large; the places of the point are held to the same bound.
fn in_bound(x: i64) -> bool
    ensures { result ≡ within bound x }
{
    integers::within(268435456, x)
}

// The quotient of a reduction, cut towards zero: x divides what y has beyond the remainder.
fn quotient(y: i64, x: i64) -> i64
    requires { (nat_abs y ≤ bound) × (0 < nat_abs x) × (nat_abs x ≤ nat_abs y) }
    ensures { result ≡ quotient y x }
{
    (y - remainder(y, x)) / x
}

// The remainder, which the reduction leaves of y: less than half of its magnitude.
fn remainder(y: i64, x: i64) -> i64
    requires { (nat_abs y ≤ bound) × (0 < nat_abs x) × (nat_abs x ≤ nat_abs y) }
    ensures value { result ≡ rem_z y x }
    ensures result_bound { 2 * nat_abs result < nat_abs y }
{
    y % x
}

// ---- The start

// Enters the rows and the diagonal into a table of zeros, where it stands, so that no table is copied.
fn enter_table(cells: &mut [i64; 864], rows: &Rows)
    requires { cells.old ≡ replicate 864 (pos 0) }
    ensures { cells.new ≡ start_table rows.now.problem.n (lent rows_of rows.now.problem) }
{
    let m = rows.problem.ma + rows.problem.mb;
    for i in 0..m {
        enter_row(cells, rows, i);
    }
    enter_diagonal(cells, own_column(rows, m));
}

// Enters the numbers of a row.
fn enter_row(cells: &mut [i64; 864], rows: &Rows, i: usize)
    requires { i < rows.now.problem.ma + rows.now.problem.mb }
    ensures { cells.new ≡ entered_row rows.now.problem.n (lent rows_of rows.now.problem) i cells.old }
{
    let own = own_column(rows, i);
    for j in 0..24 {
        cells[i * 24 + j] = upper_cell(rows, i, j, own);
    }
}

// A coefficient, or the modulus in the row's own column.
#[tactic(auto, unfolding(crate::specs::State::upper_cell))]
fn upper_cell(rows: &Rows, i: usize, j: usize, own: usize) -> i64
    requires { (i < rows.now.problem.ma + rows.now.problem.mb) × (own ≡ own_column rows.now.problem.n (lent rows_of rows.now.problem) i) }
    ensures { result ≡ upper_cell rows.now.problem.n (lent rows_of rows.now.problem) i j }
{
    let n = rows.problem.n;
    if j < n {
        number(rows, i, j)
    } else if j == own {
        number(rows, i, n + 1)
    } else {
        0
    }
}

fn enter_diagonal(cells: &mut [i64; 864], width: usize)
    requires { width ≤ 24 }
    ensures { cells.new ≡ entered_diagonal width cells.old }
{
    for j in 0..width {
        cells[(12 + j) * 24 + j] = 1;
    }
}

// The column after the variables and the congruences before row i.
fn own_column(rows: &Rows, i: usize) -> usize
    requires { i ≤ rows.now.problem.ma + rows.now.problem.mb }
    ensures { result ≡ own_column rows.now.problem.n (lent rows_of rows.now.problem) i }
{
    let n = rows.problem.n;
    n + (0..i).filter(|k| number(rows, *k, n + 1) != 0).count()
}

// The constants of the rows; 0 past the last row.
fn constants(rows: &Rows) -> [i64; 12]
    ensures { result ≡ tabulate 12 (λ i. cond (ltb i (rows.now.problem.ma + rows.now.problem.mb)) ((lent rows_of rows.now.problem).const i) (pos 0)) }
{
    array::from_fn(|i| constant(rows, i))
}

// The constant of a row; 0 past the last row.
fn constant(rows: &Rows, i: usize) -> i64
    ensures { result ≡ cond (ltb i (rows.now.problem.ma + rows.now.problem.mb)) ((lent rows_of rows.now.problem).const i) (pos 0) }
{
    if i < rows.problem.ma + rows.problem.mb {
        number(rows, i, rows.problem.n)
    } else {
        0
    }
}

// The number in a column of row i, of A's rows and then B's.
fn number(rows: &Rows, i: usize, column: usize) -> i64
    requires { (i < rows.now.problem.ma + rows.now.problem.mb) × (column < rows.now.problem.n + 2) }
    ensures coefficient { column < rows.now.problem.n → result ≡ (lent rows_of rows.now.problem).coef i column }
    ensures constant { column ≡ rows.now.problem.n → result ≡ (lent rows_of rows.now.problem).const i }
    ensures modulus { column ≡ rows.now.problem.n + 1 → result ≡ (lent rows_of rows.now.problem).modulus i }
{
    let Problem { n, ma, a, b, .. } = rows.problem;
    if i < ma {
        integers::at(a, i * (n + 2) + column)
    } else {
        integers::at(b, (i - ma) * (n + 2) + column)
    }
}
