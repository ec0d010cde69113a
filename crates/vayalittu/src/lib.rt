// The functions for C, with answers that C can read; crate `vayalittu_c` exports them. include/vayalittu.h says what each means to a
// C program.
#![tactic(auto)]

ghost use Rattle.std.specs.Prelude.{◌≡◌, Ok, Err};
ghost use Rattle.checker.specs.Answer.{judge_answer, judge_run};
ghost use Rattle.search.specs.Answer.{search_reply, search_vector, search_point, table_reply, table_run, table_number};
ghost use Rattle.frames.specs.Answer.{respond_end, respond_run};
ghost use Rattle.vayalittu.specs.Answers.{fact_of, answer_of};

use problem::{Problem, Refusal};
use search::Outcome;

// What a search answers.
#[repr(C)]
#[derive(Clone, Copy, Debug, PartialEq, Eq)]
pub struct Answer {
    pub refusal: u32,
    pub outcome: u32,
    pub steps: u32,
    pub q: i64,
}

// What is answered of a vector, beside its interpolant's coefficients.
#[repr(C)]
#[derive(Clone, Copy, Debug, PartialEq, Eq)]
pub struct Fact {
    pub refusal: u32,
    pub constant: i64,
    pub modulus: i64,
}

pub fn vayalittu_judge(
    n: usize,
    ma: usize,
    mb: usize,
    a: &[i64],
    b: &[i64],
    q: i64,
    p: &[i64],
    coeffs: &mut [i64],
) -> Fact
    ensures value { result ≡ fact_of (judge_answer n ma mb a.now b.now q p.now coeffs.old) }
    ensures coeffs_after { coeffs.new ≡ judge_run n ma mb a.now b.now q p.now coeffs.old }
{
    let problem = Problem { n, ma, mb, a, b };
    match checker::judge(&problem, q, p, coeffs) {
        Ok(fact) => Fact::from(fact),
        Err(refusal) => Fact::from(refusal),
    }
}

pub fn vayalittu_search(
    n: usize,
    ma: usize,
    mb: usize,
    a: &[i64],
    b: &[i64],
    budget: u32,
    vector: &mut [i64],
    point: &mut [i64],
) -> Answer
    ensures value { result ≡ answer_of (search_reply n ma mb a.now b.now budget vector.old point.old) }
    ensures vector_after { vector.new ≡ search_vector n ma mb a.now b.now budget vector.old point.old }
    ensures point_after { point.new ≡ search_point n ma mb a.now b.now budget vector.old point.old }
{
    let problem = Problem { n, ma, mb, a, b };
    match search::search(&problem, budget, vector, point) {
        Ok(answer) => Answer::from(answer),
        Err(refusal) => Answer::from(refusal),
    }
}

pub fn vayalittu_table(
    n: usize,
    ma: usize,
    mb: usize,
    a: &[i64],
    b: &[i64],
    budget: u32,
    cells: &mut [i64],
) -> u32
    ensures value { result ≡ table_number (table_reply n ma mb a.now b.now budget cells.old) }
    ensures cells_after { cells.new ≡ table_run n ma mb a.now b.now budget cells.old }
{
    let problem = Problem { n, ma, mb, a, b };
    match search::table_after(&problem, budget, cells) {
        Ok(()) => 0,
        Err(refusal) => refusal.number() as u32,
    }
}

pub fn vayalittu_respond(line: &[u8], out: &mut [u8]) -> usize
    ensures value { result ≡ respond_end line.now out.old 0 }
    ensures out_after { out.new ≡ respond_run line.now out.old 0 }
{
    frames::respond(line, out, 0)
}

impl From<checker::Fact> for Fact {
    ghost from_gives = { λ stated fact. fact ≡ fact_of (Ok stated) };

    fn from(stated: checker::Fact) -> Fact {
        Fact {
            refusal: 0,
            constant: stated.constant,
            modulus: stated.modulus,
        }
    }
}

impl From<Refusal> for Fact {
    ghost from_gives = { λ refusal fact. fact ≡ fact_of (Err refusal) };

    fn from(refusal: Refusal) -> Fact {
        Fact {
            refusal: refusal.number() as u32,
            constant: 0,
            modulus: 0,
        }
    }
}

// "Each answer carries its step count beside one of four outcomes".
impl From<search::Answer> for Answer {
    ghost from_gives = { λ found answer. answer ≡ answer_of (Ok found) };

    fn from(found: search::Answer) -> Answer {
        let (refusal, outcome, q) = match found.outcome {
            Outcome::Refuted(q) => (0, 1, q),
            Outcome::Solved => (0, 2, 0),
            Outcome::TooLarge => (Refusal::TooLarge.number(), 3, 0),
            Outcome::Unfinished => (0, 4, 0),
        };
        Answer {
            refusal: refusal as u32,
            outcome,
            steps: found.steps,
            q,
        }
    }
}

impl From<Refusal> for Answer {
    ghost from_gives = { λ refusal answer. answer ≡ answer_of (Err refusal) };

    fn from(refusal: Refusal) -> Answer {
        Answer {
            refusal: refusal.number() as u32,
            outcome: 0,
            steps: 0,
            q: 0,
        }
    }
}
