// The symbols of the library for C: each calls the function of its name, and states its clauses again.
#![tactic(auto)]

ghost use Rattle.std.specs.Prelude.{◌≡◌};
ghost use Rattle.checker.specs.Answer.{judge_answer, judge_run};
ghost use Rattle.search.specs.Answer.{search_reply, search_vector, search_point, table_reply, table_run, table_number};
ghost use Rattle.frames.specs.Answer.{respond_end, respond_run};
ghost use Rattle.vayalittu.specs.Answers.{fact_of, answer_of};

use vayalittu::{Answer, Fact};

#[unsafe(no_mangle)]
pub extern "C" fn vayalittu_judge(
    n: usize,
    ma: usize,
    mb: usize,
    a: &[i64],
    b: &[i64],
    q: i64,
    p: &[i64],
    coeffs: &mut [i64],
) -> Fact
    ensures value { result ≡ fact_of (judge_answer n ma mb a.now b.now q p.now coeffs.old) }
    ensures coeffs_after { coeffs.new ≡ judge_run n ma mb a.now b.now q p.now coeffs.old }
{
    vayalittu::vayalittu_judge(n, ma, mb, a, b, q, p, coeffs)
}

#[unsafe(no_mangle)]
pub extern "C" fn vayalittu_search(
    n: usize,
    ma: usize,
    mb: usize,
    a: &[i64],
    b: &[i64],
    budget: u32,
    vector: &mut [i64],
    point: &mut [i64],
) -> Answer
    ensures value { result ≡ answer_of (search_reply n ma mb a.now b.now budget vector.old point.old) }
    ensures vector_after { vector.new ≡ search_vector n ma mb a.now b.now budget vector.old point.old }
    ensures point_after { point.new ≡ search_point n ma mb a.now b.now budget vector.old point.old }
{
    vayalittu::vayalittu_search(n, ma, mb, a, b, budget, vector, point)
}

#[unsafe(no_mangle)]
pub extern "C" fn vayalittu_table(
    n: usize,
    ma: usize,
    mb: usize,
    a: &[i64],
    b: &[i64],
    budget: u32,
    cells: &mut [i64],
) -> u32
    ensures value { result ≡ table_number (table_reply n ma mb a.now b.now budget cells.old) }
    ensures cells_after { cells.new ≡ table_run n ma mb a.now b.now budget cells.old }
{
    vayalittu::vayalittu_table(n, ma, mb, a, b, budget, cells)
}

#[unsafe(no_mangle)]
pub extern "C" fn vayalittu_respond(line: &[u8], out: &mut [u8]) -> usize
    ensures value { result ≡ respond_end line.now out.old 0 }
    ensures out_after { out.new ≡ respond_run line.now out.old 0 }
{
    vayalittu::vayalittu_respond(line, out)
}
