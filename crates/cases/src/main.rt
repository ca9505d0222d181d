// Cases from standard input, each answered by a line on standard output: a run, a load, a write, a join, a run over decoded operations or boards
// combined, in the short form or the long one.
#![tactic(auto)]

mod answer;
mod asked;
mod buffers;

use crate::answer::answer;
use crate::asked::{Asked, LONG};
use crate::buffers::Buffers;
use input::read_whole;
use std::io;
use std::io::{Stdin, Stdout};
use stream::header::Header;
use stream::memory::fill;
use stream::part::part;
use stream::reading::read_header;
use stream::stop::Stop;

// A header of either form: the long one has more bytes.
fn read_either(stdin: &mut Stdin) -> Result<Header, Stop> {
    let mut header = read_header(stdin)?;
    if header.what() >= LONG {
        read_whole(stdin, &mut header.bytes[112..])?;
    }
    Ok(header)
}

// One case, with as much of each buffer as it asks for: F bytes, G bytes and the bytes of M words are read.
fn case(mut stdin: Stdin, stdout: Stdout, buffers: &mut Buffers) -> Result<(), Stop> {
    let header = read_either(&mut stdin)?;
    let words = header.memory_words();
    let (room, lent) = (buffers::output_room(&header), buffers::slice_words(&header));
    let first = part(&mut buffers.first, header.file_size())?;
    let second = part(&mut buffers.second, header.second_size())?;
    let memory = part(&mut buffers.memory, words)?;
    let bytes = part(&mut buffers.bytes, 2 * words)?;
    let out = part(&mut buffers.out, room)?;
    let slice = part(&mut buffers.slice, lent)?;
    read_whole(&mut stdin, first)?;
    read_whole(&mut stdin, second)?;
    read_whole(&mut stdin, bytes)?;
    if Asked::from(header.what()).is_run() {
        fill(memory, bytes);
    }
    let line = answer(&header, first, second, memory, out, slice);
    stdout.write_all(line.as_bytes())?;
    Ok(())
}

// All cases: the count of turns is one that no input uses up.
// It stands in bags and in cases: one function for both would take the turn as a closure, and its contract would be longer than the loop.
fn main(rt: HostRuntime) -> io::Result<()> {
    let mut buffers = Buffers::new();
    for _ in 0..u64::MAX {
        if let Err(stop) = case(rt.stdin(), rt.stdout(), &mut buffers) {
            return stop.tell(rt.stdout());
        }
    }
    Ok(())
}
