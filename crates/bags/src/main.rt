// Services from standard input, each answered by a line on standard output (docs/SERVICE.md has both forms).
#![tactic(auto)]

mod answer;
mod buffers;
mod reading;

use crate::answer::answer;
use crate::buffers::Buffers;
use crate::reading::{read_items, read_sizes, read_words};
use input::read_whole;
use std::io;
use std::io::{Stdin, Stdout};
use stream::count::count_up;
use stream::header::Header;
use stream::part::part;
use stream::reading::read_header;
use stream::stop::Stop;

// One service after its header, with as much of each buffer as it asks for.
fn service(
    header: Header,
    mut stdin: Stdin,
    stdout: Stdout,
    buffers: &mut Buffers,
) -> Result<(), Stop> {
    let file = part(&mut buffers.file, header.file_size())?;
    let memory = part(&mut buffers.memory, header.memory_words())?;
    read_whole(&mut stdin, file)?;
    read_words(&mut stdin, &mut buffers.bytes, memory)?;
    let sizes = read_sizes(&mut stdin)?;
    let budgets = part(&mut buffers.budgets, sizes.budgets)?;
    let restarts = part(&mut buffers.restarts, sizes.restarts)?;
    let words = part(&mut buffers.words, sizes.words)?;
    let endings = part(&mut buffers.endings, sizes.endings)?;
    let steps = part(&mut buffers.steps, sizes.steps)?;
    read_items(&mut stdin, budgets)?;
    read_items(&mut stdin, restarts)?;
    read_words(&mut stdin, &mut buffers.bytes, words)?;
    count_up(endings);
    count_up(steps);
    answer(
        stdout,
        header,
        file,
        memory,
        sizes.window,
        budgets,
        restarts,
        words,
        endings,
        steps,
    )?;
    Ok(())
}

// All services, the first one's header read: the count of turns is one that no input uses up. Not inlined: the stack has room for the buffers here alone.
// The loop stands in bags and in cases: one function for both would take the turn as a closure, and its contract would be longer than the loop.
#[inline(never)]
fn services(first: Header, mut stdin: Stdin, stdout: Stdout) -> Result<(), Stop> {
    let mut buffers = Buffers::new();
    let mut header = first;
    for _ in 0..u64::MAX {
        service(header, stdin, stdout, &mut buffers)?;
        header = read_header(&mut stdin)?;
    }
    Ok(())
}

// The buffers are made once there is a service: an input without one needs no room for them.
fn main(rt: HostRuntime) -> io::Result<()> {
    let mut stdin = rt.stdin();
    let told = match read_header(&mut stdin) {
        Ok(header) => services(header, stdin, rt.stdout()),
        Err(stop) => Err(stop),
    };
    match told {
        Ok(()) => Ok(()),
        Err(stop) => stop.tell(rt.stdout()),
    }
}
