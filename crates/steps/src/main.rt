// Cases from standard input, in each of which one step is made, answered by a line on standard output.
#![tactic(auto)]

use engine::single::single_step;
use input::read_full;
use lines::line::step_line;
use std::io;
use std::io::{Stdin, Stdout};
use stream::header::Header;
use stream::memory::fill;

// What a case has room for: the program file, the bytes of memory, memory.
#[derive(Drop)]
struct Buffers {
    file: [u8; 33792],
    bytes: [u8; 65536],
    memory: [u16; 32768],
}

// One case: its header, the program file, the words of memory. The simulator makes none that is longer than the buffers; it would have no answer,
// and what follows it would be out of step.
fn case(mut stdin: Stdin, stdout: Stdout, buffers: &mut Buffers) -> io::Result<()> {
    let mut bytes = [0u8; 320];
    read_full(&mut stdin, &mut bytes[..112])?;
    let header = Header::new(bytes);
    let words = header.memory_words();
    let Some(file) = buffers.file.get_mut(..header.file_size()) else {
        return Ok(());
    };
    let Some(memory) = buffers.memory.get_mut(..words) else {
        return Ok(());
    };
    let Some(bytes) = buffers.bytes.get_mut(..2 * words) else {
        return Ok(());
    };
    read_full(&mut stdin, file)?;
    read_full(&mut stdin, bytes)?;
    fill(memory, bytes);
    let made = single_step(file, header.settings(), header.state(), memory);
    stdout.write_all(step_line(made, memory).as_bytes())
}

fn main(rt: HostRuntime) -> io::Result<()> {
    let mut stdin = rt.stdin();
    let mut count = [0u8; 2];
    read_full(&mut stdin, &mut count)?;
    let mut buffers = Buffers {
        file: [0; 33792],
        bytes: [0; 65536],
        memory: [0; 32768],
    };
    for _ in 0..u16::from_le_bytes(count) {
        case(stdin, rt.stdout(), &mut buffers)?;
    }
    Ok(())
}
