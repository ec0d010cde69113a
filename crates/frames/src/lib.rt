//! Frames: a text line in, its answer lines out.
#![tactic(auto)]

ghost use Rattle.std.specs.Prelude.{◌≡◌, true, None, [], ◌+◌, ◌*◌, ◌<◌, ◌≤◌, length, IfOk};
ghost use Rattle.problem.specs.Refusal.{refusal_in};
ghost use Rattle.problem.specs.Lent.{lent};
ghost use Rattle.frames.specs.Hex.{is_digit, digit_of, value_at};
ghost use Rattle.frames.specs.Problem.{are_digits, is_frame, agree, line_refusal, head_of, numbers_at};
ghost use Rattle.frames.specs.Answer.{zeros, refuted_answer, outcome_answer, problem_answer, problem_lines, answer_of, respond_end, respond_run};
ghost use Rattle.frames.specs.Code.{Few, Readable};

mod text;

use checker::Fact;
use problem::{Problem, Refusal};
use search::{Answer, Outcome};
use text::Text;

// The length of the longest answer: a refutation of 12 rows, and an interpolant of 12 variables.
pub const ANSWER_MAX: usize = 346;

// Answers one line: writes the answer lines into `out` from place `at` on, and answers the place after them. Where fewer places are
// left than the longest answer takes, it writes nothing and answers `at`.
pub fn respond(line: &[u8], out: &mut [u8], at: usize) -> usize
    ensures value { result ≡ respond_end line.now out.old at }
    ensures out_after { out.new ≡ respond_run line.now out.old at }
{
    if out.len().saturating_sub(at) < ANSWER_MAX {
        return at;
    }
    let mut text = Text::new();
    put_answer(line, &mut text);
    let answer = text.as_slice();
    let end = at + answer.len();
    out[at..end].copy_from_slice(answer);
    end
}

// Writes the answer to a line.
fn put_answer(line: &[u8], text: &mut Text)
    requires { text.old ≡ [] }
    ensures { text.new ≡ answer_of line.now }
{
    match read_head(line) {
        Ok(head) => put_lines(line, head, text),
        Err(refusal) => text.refusal(refusal, 0),
    }
}

// Writes the answer to a line that is a problem.
fn put_lines(line: &[u8], head: Head, text: &mut Text)
    requires readable { Readable line.now head }
    requires head { head ≡ head_of line.now }
    requires empty { text.old ≡ [] }
    ensures { text.new ≡ problem_lines line.now }
{
    let Head { n, ma, mb, budget } = head;
    let mut a = [0; 168];
    let mut b = [0; 168];
    let a = &mut a[..ma * (n + 2)];
    let b = &mut b[..mb * (n + 2)];
    read_numbers(line, 16, a);
    read_numbers(line, 16 + a.len() * 8, b);
    put_problem(&Problem { n, ma, mb, a, b }, budget, text);
}

// ---- Problems

// Searches, and writes the answer.
fn put_problem(problem: &Problem, budget: u32, text: &mut Text)
    requires few { Few problem.now }
    requires empty { text.old ≡ [] }
    ensures { text.new ≡ lent problem_answer problem.now budget (zeros (problem.now.ma + problem.now.mb)) (zeros problem.now.n) (zeros problem.now.n) }
{
    let mut vector = [0; 12];
    let mut point = [0; 12];
    let vector = &mut vector[..problem.ma + problem.mb];
    let point = &mut point[..problem.n];
    match search::search(problem, budget, vector, point) {
        Ok(found) => put_found(problem, &found, vector, point, text),
        Err(refusal) => text.refusal(refusal, 0),
    }
}

// Writes the answer to what a search found. `vector` and `point` are as the search left them.
fn put_found(problem: &Problem, found: &Answer, vector: &[i64], point: &[i64], text: &mut Text)
    requires few { Few problem.now }
    requires vector { length vector.now ≡ problem.now.ma + problem.now.mb }
    requires point { length point.now ≡ problem.now.n }
    requires empty { text.old ≡ [] }
    ensures { text.new ≡ lent (outcome_answer found.now.outcome found.now.steps) problem.now vector.now point.now (zeros problem.now.n) }
{
    match found.outcome {
        Outcome::Unfinished => text.unfinished(found.steps),
        Outcome::TooLarge => text.refusal(Refusal::TooLarge, found.steps),
        Outcome::Refuted(q) => put_refuted(problem, q, found.steps, vector, text),
        Outcome::Solved => text.point(found.steps, problem.n, point),
    }
}

// Writes the refutation and its interpolant. If the checker refused what the search found, its refusal would be written.
fn put_refuted(problem: &Problem, q: i64, steps: u32, vector: &[i64], text: &mut Text)
    requires few { Few problem.now }
    requires vector { length vector.now ≡ problem.now.ma + problem.now.mb }
    requires empty { text.old ≡ [] }
    ensures { text.new ≡ lent (refuted_answer q steps) problem.now vector.now (zeros problem.now.n) }
{
    let mut coeffs = [0; 12];
    let coeffs = &mut coeffs[..problem.n];
    match checker::judge(problem, q, vector, coeffs) {
        Ok(Fact { constant, modulus }) => {
            text.refutation(steps, problem.ma + problem.mb, q, vector);
            text.interpolant(problem.n, coeffs, constant, modulus);
        }
        Err(refusal) => text.refusal(refusal, 0),
    }
}

// ---- Problem frames

// What a frame says before its rows.
#[derive(Clone, Copy)]
struct Head {
    n: usize,
    ma: usize,
    mb: usize,
    budget: u32,
}

// The head of a line that is a problem; else the first refusal before any search.
#[tactic(auto, unfolding(crate::specs::Problem::line_refusal, crate::specs::Problem::is_problem), using(crate::proofs::Laws::Problem::frame_long, crate::proofs::Laws::Problem::frame_digits))]
fn read_head(line: &[u8]) -> Result<Head, Refusal>
    ensures head { IfOk result (λ head. head ≡ head_of line.now) }
    ensures refusal { refusal_in result ≡ line_refusal line.now }
{
    if !is_frame(line) {
        return Err(Refusal::NoFrame);
    }
    let head = Head {
        n: value_at(line, 2, 2) as usize,
        ma: value_at(line, 4, 2) as usize,
        mb: value_at(line, 6, 2) as usize,
        budget: value_at(line, 8, 8),
    };
    if !agree(head.n, head.ma + head.mb, line.len()) {
        return Err(Refusal::WrongShape);
    }
    Ok(head)
}

// Whether a line is a frame 01 of any counts; what is not is refused with 9.
#[tactic(auto, unfolding(crate::specs::Problem::is_frame))]
fn is_frame(line: &[u8]) -> bool
    ensures { result ≡ is_frame line.now }
{
    line.len() <= 1360
        && 16 <= line.len()
        && line.len() % 2 == 0
        && are_digits(line)
        && value_at(line, 0, 2) == 1
}

// Whether the counts of n variables and m rows are right, and a frame of them is `long` characters long.
fn agree(n: usize, m: usize, long: usize) -> bool
    ensures { result ≡ agree n m long }
{
    matches!(n, 1..=12) && matches!(m, 1..=12) && long == 16 + m * (n + 2) * 8
}

// Reads a run of numbers of 4 bytes each, from a place on.
fn read_numbers(line: &[u8], at: usize, numbers: &mut [i64])
    requires inside { at + length numbers.old * 8 ≤ length line.now }
    requires digits { are_digits line.now ≡ true }
    ensures { numbers.new ≡ numbers_at line.now at (length numbers.old) }
{
    for (i, number) in numbers.iter_mut().enumerate() {
        *number = i64::from(value_at(line, at + i * 8, 8).cast_signed());
    }
}

// ---- Hexadecimal, read

// Whether each character is a digit. No character ends the chain, so that many can be tested at once.
fn are_digits(line: &[u8]) -> bool
    ensures { result ≡ are_digits line.now }
{
    line.iter().fold(true, |good, c| good & is_digit(*c))
}

// Whether a character is one of 0 to 9 or a to f.
#[tactic(auto, unfolding(crate::specs::Hex::is_digit))]
fn is_digit(c: u8) -> bool
    ensures { result ≡ is_digit c }
{
    matches!(c, b'0'..=b'9' | b'a'..=b'f')
}

// The number that some digits from a place on stand for.
#[tactic(auto, using(crate::proofs::Laws::Hex::value_room, crate::proofs::Laws::Hex::value_none, crate::proofs::Laws::Hex::value_more))]
fn value_at(line: &[u8], at: usize, count: usize) -> u32
    requires few { count ≤ 8 }
    requires inside { at + count ≤ length line.now }
    requires digits { are_digits line.now ≡ true }
    ensures { result ≡ value_at line.now at count }
{
    let mut value = 0;
    for c in &line[at..at + count] {
        value = value * 16 + digit_of(*c);
    }
    value
}

// The value of a digit.
#[tactic(auto, unfolding(crate::specs::Hex::digit_of, crate::specs::Hex::is_digit))]
fn digit_of(c: u8) -> u32
    requires { is_digit c ≡ true }
    ensures value { result ≡ digit_of c }
    ensures upper_bound { result < 16 }
{
    u32::from(if c < b'a' { c - b'0' } else { c - b'a' + 10 })
}
