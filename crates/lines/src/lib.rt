//! Lines: a stream of bytes, however it arrives in chunks, is cut into lines, and each line is answered.
#![tactic(auto)]

ghost use Rattle.std.specs.Prelude.{◌≡◌, ◌++◌, ◌≤◌, length, take};
ghost use Rattle.frames.specs.Answer.{respond_end, respond_run};
ghost use Rattle.lines.specs.Lines.{end_from, kept_held, kept_run, answered_run, is_carry, fits, fed_progress, fed_carry, fed_out, finish_end, finish_run};
ghost use Rattle.lines.specs.Code.{Lawful};

use frames::ANSWER_MAX;

// The places of a carry: one more than a frame has characters, so that a line is told from every frame, whatever follows.
pub const CAP: usize = 1361;

// How far a stream is: the place in the chunk up to which its bytes are taken, the place in the run of answers up to which it is
// written, and how many places of the carry are in use.
#[derive(Clone, Copy, Debug, PartialEq, Eq)]
pub struct Progress {
    pub used: usize,
    pub made: usize,
    pub held: usize,
}

// Takes the bytes of `chunk` from `at` on up to its next line end, or to its end. A whole line is answered: its answer is written
// into `out` from `made` on. An unfinished line is kept in `carry`, of which `held` places are in use, up to its 1,361 places. Where
// the lengths or places are not so, or fewer places are left than the longest answer takes, nothing is changed.
pub fn feed(
    chunk: &[u8],
    at: usize,
    carry: &mut [u8],
    held: usize,
    out: &mut [u8],
    made: usize,
) -> Progress
    ensures value { result ≡ fed_progress chunk.now at carry.old held out.old made }
    ensures carry_after { carry.new ≡ fed_carry chunk.now at carry.old held out.old made }
    ensures out_after { out.new ≡ fed_out chunk.now at carry.old held out.old made }
{
    if !is_fit(chunk, at, carry, held, out, made) {
        return Progress {
            used: at,
            made,
            held,
        };
    }
    let end = line_end(chunk, at);
    let bytes = &chunk[at..end];
    if end < chunk.len() {
        Progress {
            used: end + 1,
            made: answer(bytes, carry, held, out, made),
            held: 0,
        }
    } else {
        Progress {
            used: end,
            made,
            held: keep(bytes, carry, held),
        }
    }
}

// Answers a last line without its line end, if it has any character: writes the answer into `out` from `made` on, and answers the
// place after it. Where the carry is not as `feed` leaves it, or fewer places are left than the longest answer takes, nothing is
// changed.
#[tactic(auto, unfolding(crate::specs::Lines::finish_end, crate::specs::Lines::finish_run))]
pub fn finish(carry: &[u8], held: usize, out: &mut [u8], made: usize) -> usize
    ensures value { result ≡ finish_end carry.now held out.old made }
    ensures out_after { out.new ≡ finish_run carry.now held out.old made }
{
    if !is_carry(carry, held) || held == 0 {
        return made;
    }
    frames::respond(&carry[..held], out, made)
}

// Whether a call of `feed` does anything.
#[tactic(auto, unfolding(crate::specs::Lines::fits), using(crate::proofs::Laws::Fits::room_left))]
fn is_fit(chunk: &[u8], at: usize, carry: &[u8], held: usize, out: &[u8], made: usize) -> bool
    ensures { result ≡ fits chunk.now at carry.now held out.now made }
{
    is_carry(carry, held) && at <= chunk.len() && ANSWER_MAX <= out.len().saturating_sub(made)
}

// Whether a carry is as long as it must be, with no more of it in use.
#[tactic(auto, unfolding(crate::specs::Lines::is_carry, crate::specs::Lines::cap))]
fn is_carry(carry: &[u8], held: usize) -> bool
    ensures { result ≡ is_carry carry.now held }
{
    carry.len() == CAP && held <= CAP
}

// The place of the next line end from `at` on, or the length.
fn line_end(chunk: &[u8], at: usize) -> usize
    requires { at ≤ length chunk.now }
    ensures value { result ≡ end_from chunk.now at }
    ensures inside { (at ≤ result) × (result ≤ length chunk.now) }
{
    let rest = &chunk[at..];
    at + rest.iter().position(|c| *c == b'\n').unwrap_or(rest.len())
}

// Answers the line that starts in the carry, if that has any of it, and ends with `bytes`. A line that stands whole in the chunk is
// not copied.
fn answer(bytes: &[u8], carry: &mut [u8], held: usize, out: &mut [u8], made: usize) -> usize
    requires carry { Lawful carry.old held }
    ensures value { result ≡ respond_end (take held carry.old ++ bytes.now) out.old made }
    ensures carry_after { carry.new ≡ answered_run carry.old held bytes.now }
    ensures out_after { out.new ≡ respond_run (take held carry.old ++ bytes.now) out.old made }
{
    if held == 0 {
        return frames::respond(bytes, out, made);
    }
    let kept = keep(bytes, carry, held);
    frames::respond(&carry[..kept], out, made)
}

// Keeps bytes after those that the carry has, up to its cap, and answers how many places are then in use.
#[tactic(auto, unfolding(crate::specs::Lines::cap))]
fn keep(bytes: &[u8], carry: &mut [u8], held: usize) -> usize
    requires { Lawful carry.old held }
    ensures value { result ≡ kept_held held bytes.now }
    ensures carry_after { carry.new ≡ kept_run carry.old held bytes.now }
{
    let count = bytes.len().min(CAP - held);
    carry[held..held + count].copy_from_slice(&bytes[..count]);
    held + count
}
