// Lists the compositions that the request on standard input asks for (document 01, "Listing program"). What is printed is said by `put_page` of
// crate `lines`, page after page; here it is read, written, and said on standard error where that fails.
#![tactic(auto)]

use std::io;
use std::io::{Read, Write};
use std::process::ExitCode;

// A read or a write that failed, and why.
#[derive(Drop)]
enum Failure {
    Input(io::Error),
    Output(io::Error),
}

// Prints page after page. (A `while let`: the last page has no next line.)
fn print<W: Write>(output: &mut W, text: &[u8]) -> io::Result<()> {
    let mut space = [0u8; 65536];
    let buffer: &mut [u8] = &mut space;
    let mut next = Some(1);
    while let Some(line) = next {
        let page = lines::put_page(text, line, buffer);
        let end = page.end;
        output.write_all(&buffer[..end])?;
        next = page.next;
    }
    Ok(())
}

// Reads until no more bytes come, because the input ends or the text is full, and prints. (A `loop`, since a read alone says that it is the last.)
fn run<R: Read, W: Write>(input: &mut R, output: &mut W, text: &mut [u8]) -> Result<(), Failure> {
    let mut end = 0;
    loop {
        let more = input.read(&mut text[end..]).map_err(Failure::Input)?;
        if more == 0 {
            return print(output, &text[..end]).map_err(Failure::Output);
        }
        end += more;
    }
}

// The system's words for an error, without its number behind them.
fn words_of(error: &str) -> &str {
    match error.split_once(" (os error ") {
        Some((words, _)) => words,
        None => error,
    }
}

// Says on standard error why a read or a write failed.
fn fail(rt: &HostRuntime, stream: &str, error: io::Error) -> io::Result<()> {
    let text = error.to_string(rt.alloc())?;
    let words = words_of(text.as_str());
    eprintln!(rt; "list: standard {stream}: {words}")
}

// A request has at most 256 bytes, so one more shows that it is longer.
fn main(rt: HostRuntime) -> ExitCode {
    let mut text = [0u8; 257];
    let _ = match run(&mut rt.stdin(), &mut rt.stdout(), &mut text) {
        Ok(()) => return ExitCode::SUCCESS,
        Err(Failure::Input(error)) => fail(&rt, "input", error),
        Err(Failure::Output(error)) => fail(&rt, "output", error),
    };
    ExitCode::FAILURE
}
