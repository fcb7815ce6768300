// Reads one job from standard input and writes its answer to standard output (document 01). Where a read or a write fails, one line goes
// to standard error, and no part of a text is judged. The exit status is 0 all the same, where that line could be written: a caller of
// this program looks at standard error, or starts it by the command ./linres.
#![tactic(auto)]

ghost use Rattle.std.specs.Prelude.{◌≤◌, length, IfOk};
ghost use Rattle.linres_text.specs.Texts.{TextOf};
ghost use Rattle.linres.specs.Passing.{Within};

use std::io;
use std::io::{Error, ErrorKind, Read, Stdin, Stdout, Write};

// How often a read is made again that a signal interrupted. A loop has to end; no run comes to this.
const PATIENCE: u64 = u64::MAX;

// One read from standard input, made again where a signal interrupts it. It passes no byte at the end.
fn read_part(input: &mut Stdin, part: &mut [u8]) -> io::Result<usize>
    ensures { Within (length part.new) result }
{
    for _ in 0..PATIENCE {
        match input.read(part) {
            Err(error) if error.kind() == ErrorKind::Interrupted => {}
            passed => return passed,
        }
    }
    Err(Error::from(ErrorKind::Interrupted))
}

// Reads until standard input ends or text is full.
fn read_whole(input: &mut Stdin, text: &mut [u8]) -> io::Result<usize>
    ensures { Within (length text.new) result }
{
    let mut n = 0;
    // Each turn goes on by as many bytes as a read passed, which no range can count.
    while n < text.len() {
        let got = read_part(input, &mut text[n..])?;
        if got == 0 {
            break;
        }
        n += got;
    }
    Ok(n)
}

// Writes the whole answer, which the caller has shown to be the one to the text; or says why it could not.
fn write_whole(output: &mut Stdout, text: &[u8], answer: &[u8]) -> io::Result<()>
    requires { TextOf text.now answer.now }
{
    output.write_all(answer).map_err(in_plain_words)
}

// The library has words of its own for a write that takes no byte; `write zero` says what happened.
fn in_plain_words(error: Error) -> Error {
    match error.kind() {
        ErrorKind::WriteZero => Error::from(ErrorKind::WriteZero),
        _ => error,
    }
}

// Bytes enough for the system's words for any error.
const LONGEST_WORDS: usize = 512;

// The bytes of the error's text, at the front of room.
fn told(error: Error, room: &mut [u8]) -> io::Result<usize>
    ensures { IfOk result (λ n. n ≤ length room.new) }
{
    let most = room.len();
    let mut rest = &mut room[..];
    write!(rest, "{error}")?;
    Ok(most.saturating_sub(rest.len()))
}

// One line on standard error: what could not be done, and the system's words for why.
fn say(rt: &HostRuntime, what: &str, error: Error) -> io::Result<()> {
    let mut room = [0u8; LONGEST_WORDS];
    let n = told(error, &mut room)?;
    let text = str::from_utf8(&room[..n]).unwrap_or("");
    match text.split_once(" (os error ") {
        Some((words, _)) => eprintln!(rt; "linres: {what}: {words}"),
        None => eprintln!(rt; "linres: {what}: {text}"),
    }
}

fn main(rt: HostRuntime) -> io::Result<()> {
    let mut text = [0u8; limits::LONGEST_TEXT + 1];
    let n = match read_whole(&mut rt.stdin(), &mut text) {
        Ok(n) => n,
        Err(error) => return say(&rt, "standard input could not be read", error),
    };
    let mut out = [0u8; limits::LONGEST_ANSWER];
    let len = linres_text::answer_any(&text[..n], &mut out);
    if let Err(error) = write_whole(&mut rt.stdout(), &text[..n], &out[..len]) {
        return say(&rt, "the answer could not be written", error);
    }
    Ok(())
}
