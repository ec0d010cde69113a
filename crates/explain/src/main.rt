// Writes each line of standard input, a frame 01 to 06, as one line of text that a person can check by hand. A line that is no frame is
// said to be none.
//
// The input is read in large chunks, and a `Text` collects the characters of the line that has not ended. Of a whole line the digits
// are decoded, the bytes that they spell are read as a `Frame`, and the frame is displayed into another `Text`, which is written as soon
// as it might have no room for the next line. All memory is of a fixed size.
#![tactic(auto)]

mod digits;
mod fields;
mod frame;
mod row;
mod text;

use crate::fields::MAX_BYTES;
use crate::frame::Frame;
use crate::text::Text;
use std::fmt::Write as _;
use std::io::{ErrorKind, Read, Write};
use std::process::ExitCode;
use std::{fmt, io};

// How much is read at a time.
const CHUNK_SIZE: usize = 65536;

// How much is explained, at most, before it is written.
const PAGE_SIZE: usize = 61440;

// More room than any explanation needs. The longest has 12 rows, each of 12 terms such as ` - 2147483648*x12`, 17 characters, and an
// end such as ` = -2147483648 (mod -2147483648), `, 34 characters. With 40 for the rest that is below 2,900.
const ROOM: usize = 4096;

// The most characters that are kept of a line: one more than a frame has, so that the line is told from every frame, whatever follows.
const MAX_KEPT: usize = 2 * MAX_BYTES + 1;

// The first characters of the line of the input that has not ended yet.
type Line = Text<MAX_KEPT>;

// The explanations that are not written yet.
type Page = Text<PAGE_SIZE>;

// Adds what a line says, with a line end.
fn explain(line: &[u8], page: &mut Page) -> fmt::Result {
    let mut bytes = [0; MAX_BYTES];
    match digits::decode(line, &mut bytes).and_then(Frame::try_from) {
        Ok(frame) => writeln!(page, "{frame}"),
        Err(no_frame) => writeln!(page, "{no_frame}"),
    }
}

// Writes the page, which is then empty. If that fails, nothing of the page is written again.
fn write(page: &mut Page, output: &mut impl Write) -> io::Result<()> {
    output.write_all(page.as_slice())?;
    page.clear();
    Ok(())
}

// Explains each line that ends in a chunk, and writes what this made, whole lines at a time. `line` has what came before of the first
// line, and then gets what is left after the last line end.
fn explain_chunk(
    chunk: &[u8],
    line: &mut Line,
    page: &mut Page,
    output: &mut impl Write,
) -> io::Result<()> {
    for &character in chunk {
        if character == b'\n' {
            explain(line.as_slice(), page)?;
            line.clear();
            if page.room() < ROOM {
                write(page, output)?;
            }
        } else {
            line.push(character);
        }
    }
    write(page, output)
}

// Explains each line of the input. A last line needs no line end, and a read that a signal interrupts is tried again.
//
// A proved loop has to end, and nothing says that the input does: the reads are counted up to a number that no run reaches.
fn explain_all(input: &mut impl Read, output: &mut impl Write) -> io::Result<()> {
    let mut chunk = [0; CHUNK_SIZE];
    let mut line = Line::new();
    let mut page = Page::new();
    for _ in 0..u64::MAX {
        match input.read(&mut chunk) {
            Ok(0) => break,
            Ok(n) => explain_chunk(&chunk[..n], &mut line, &mut page, output)?,
            Err(error) if error.kind() == ErrorKind::Interrupted => {}
            Err(error) => return Err(error),
        }
    }
    if !line.is_empty() {
        explain(line.as_slice(), &mut page)?;
    }
    write(&mut page, output)
}

fn main(rt: HostRuntime) -> ExitCode {
    match explain_all(&mut rt.stdin(), &mut rt.stdout()) {
        Ok(()) => ExitCode::SUCCESS,
        Err(error) => {
            let _ = eprintln!(rt; "explain: {error}");
            ExitCode::FAILURE
        }
    }
}
