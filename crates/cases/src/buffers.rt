// What a case has room for, and how much of it is asked for.
use crate::asked::Asked;
use stream::header::Header;

// Two files, the bytes of memory, memory, lent output, a lent slice for decoded operations.
#[derive(Drop)]
pub struct Buffers {
    pub first: [u8; 65536],
    pub second: [u8; 65536],
    pub bytes: [u8; 65536],
    pub memory: [u16; 32768],
    pub out: [u8; 65536],
    pub slice: [u16; 65536],
}

impl Buffers {
    // Buffers of zeros.
    pub fn new() -> Buffers {
        Buffers {
            first: [0; 65536],
            second: [0; 65536],
            bytes: [0; 65536],
            memory: [0; 32768],
            out: [0; 65536],
            slice: [0; 65536],
        }
    }
}

// The bytes of lent output: R of a load, a write or a join, none of the others.
pub fn output_room(header: &Header) -> usize {
    match Asked::from(header.what()) {
        Asked::Load | Asked::Write => header.budget() as usize,
        Asked::Join => header.output_room(),
        _ => 0,
    }
}

// The words of the lent slice: L of a run over decoded operations, none of the others.
pub fn slice_words(header: &Header) -> usize {
    match Asked::from(header.what()) {
        Asked::Decoded => header.lent(),
        _ => 0,
    }
}
