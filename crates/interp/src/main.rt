//! The program `interp`: answers each line of standard input on standard output. Crate `frames` says what a line means, and crate
//! `lines` where it ends; here is only reading and writing, a large chunk at a time.
#![tactic(auto)]

ghost use Rattle.std.specs.Prelude.{◌≡◌, ◌+◌, ◌<◌, ◌≤◌, length, OnOk};
ghost use Rattle.frames.specs.Answer.{answer_max};
ghost use Rattle.lines.specs.Lines.{cap};

use frames::ANSWER_MAX;
use lines::CAP;
use std::io;
use std::io::{ErrorKind, Read, Write};
use std::process::ExitCode;

fn main(rt: HostRuntime) -> ExitCode {
    match answer_all(&mut rt.stdin(), &mut rt.stdout()) {
        Ok(()) => ExitCode::SUCCESS,
        Err(error) => {
            report(&rt, error);
            ExitCode::FAILURE
        }
    }
}

// Answers each line of the input. A read that a signal interrupts is tried again. A proved loop has to end, and nothing says that the
// input does: no run uses up so many turns.
fn answer_all(input: &mut impl Read, output: &mut impl Write) -> io::Result<()> {
    let mut chunk = [0; 65536];
    let mut stream = Stream::new();
    for _ in 0..u64::MAX {
        match input.read(&mut chunk) {
            Ok(0) => return stream.finish(output),
            Ok(n) => stream.feed(&chunk[..n], output)?,
            Err(error) if error.kind() == ErrorKind::Interrupted => {}
            Err(error) => return Err(error),
        }
    }
    Ok(())
}

// What is between the input and the output: the line that has not ended yet, in the first `held` places of the carry, and the
// answers that are not written yet, in the first `made` places of `out`.
#[derive(Drop)]
struct Stream {
    carry: [u8; CAP],
    held: usize,
    out: [u8; 65536],
    made: usize,
    ghost few: { held ≤ cap },
    ghost within: { made ≤ 65536 },
}

impl Stream {
    fn new() -> Self {
        Stream {
            carry: [0; CAP],
            held: 0,
            out: [0; 65536],
            made: 0,
        }
    }

    // Feeds a chunk line by line. Answers are written where `out` has no more room for one, and once at the end, so that a line is
    // answered before the program waits for the next.
    fn feed(&mut self, chunk: &[u8], output: &mut impl Write) -> io::Result<()> {
        let mut at = 0;
        while at < chunk.len() {
            self.make_room(output)?;
            at = self.feed_line(chunk, at);
        }
        self.write(output)
    }

    // Feeds what a chunk has from place `at` on up to a line end, or to its end, and answers the place after it.
    fn feed_line(&mut self, chunk: &[u8], at: usize) -> usize
        requires inside { at < length chunk.now }
        requires room { self.old.made + answer_max ≤ 65536 }
        ensures { (at < result) × (result ≤ length chunk.now) }
    {
        let progress = lines::feed(
            chunk,
            at,
            &mut self.carry,
            self.held,
            &mut self.out,
            self.made,
        );
        self.held = progress.held;
        self.made = progress.made;
        progress.used
    }

    // Answers a last line without its line end.
    fn finish(&mut self, output: &mut impl Write) -> io::Result<()> {
        self.make_room(output)?;
        self.made = lines::finish(&self.carry, self.held, &mut self.out, self.made);
        self.write(output)
    }

    // Where `out` has no more room for the longest answer, writes those that are made.
    fn make_room(&mut self, output: &mut impl Write) -> io::Result<()>
        ensures { OnOk result (self.new.made + answer_max ≤ 65536) }
    {
        if self.out.len() - self.made < ANSWER_MAX {
            self.write(output)?;
        }
        Ok(())
    }

    // Writes the answers that are made.
    fn write(&mut self, output: &mut impl Write) -> io::Result<()>
        ensures { OnOk result (self.new.made ≡ 0) }
    {
        output.write_all(&self.out[..self.made])?;
        self.made = 0;
        Ok(())
    }
}

// Says on standard error why a read or a write failed.
fn report(errors: &impl Eprint, error: io::Error) {
    let _ = errors.eprintln(format_args!("interp: {error}"));
}
