// Operations as text from standard input, written as a program file to standard output. The text has two hexadecimal digits for each byte; spaces and
// line ends part them, and a comment goes from # to the end of its line.
#![tactic(auto)]

ghost use Rattle.std.specs.Prelude.{◌<◌, ◌≤◌, IfSome, length};

use input::read_full;
use loader::write::write;
use std::io;
use std::io::{Stderr, Stdout};

// The value of a hexadecimal digit, upper-case.
fn digit(c: u8) -> Option<u8>
    ensures { IfSome result (λ d. d < 16) }
{
    match c {
        b'0'..=b'9' => Some(c - b'0'),
        b'A'..=b'F' => Some(c - b'A' + 10),
        _ => None,
    }
}

// The character parts bytes: a space or a line end.
fn is_space(c: u8) -> bool {
    matches!(c, b' ' | b'\n' | b'\r')
}

// A text from its first line end on.
fn from_line_end(text: &[u8]) -> &[u8]
    ensures { length result.now ≤ length text.now }
{
    match text.iter().position(|c| *c == b'\n') {
        Some(at) => &text[at..],
        None => &[],
    }
}

// The byte of two digits at the start of a text.
fn byte(text: &[u8]) -> Option<u8>
    ensures { IfSome result (λ b. 2 ≤ length text.now) }
{
    if text.len() < 2 {
        return None;
    }
    Some(16 * digit(text[0])? + digit(text[1])?)
}

// The bytes of a text, one after the other at the start of `out`, and their number, unless the text is none of bytes, or of too many.
fn parse(text: &[u8], out: &mut [u8]) -> Option<usize>
    ensures { IfSome result (λ n. n ≤ length out.new) }
{
    let mut rest = text;
    let mut n = 0;
    while !rest.is_empty() {
        if is_space(rest[0]) {
            rest = &rest[1..];
        } else if rest[0] == b'#' {
            rest = from_line_end(&rest[1..]);
        } else {
            let b = byte(rest)?;
            if n == out.len() {
                return None;
            }
            out[n] = b;
            n += 1;
            rest = &rest[2..];
        }
    }
    Some(n)
}

// The program file of these operations, or the refusal on standard error.
fn print_file(stdout: Stdout, stderr: Stderr, operations: &[u8]) -> io::Result<()> {
    let mut file = [0u8; 32768];
    match write(operations, &mut file) {
        Ok(size) => stdout.write_all(&file[..size]),
        Err(refusal) => eprintln!(stderr; "refused{refusal}"),
    }
}

// A text of at most 65,536 characters: one more is read, so that a longer one is seen.
fn main(rt: HostRuntime) -> io::Result<()> {
    let mut text = [0u8; 65537];
    let mut operations = [0u8; 32768];
    let size = read_full(&mut rt.stdin(), &mut text)?;
    if 65536 < size {
        return eprintln!(rt.stderr(); "badtext");
    }
    match parse(&text[..size], &mut operations) {
        Some(n) => print_file(rt.stdout(), rt.stderr(), &operations[..n]),
        None => eprintln!(rt.stderr(); "badtext"),
    }
}
