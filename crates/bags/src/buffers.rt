// What a service has room for.

// The most bags: budgets, restarts, endings or steps.
const BAGS: usize = 256;

// A file, memory, the bytes of words, the lists of bags, the lent slices for how each ends.
#[derive(Drop)]
pub struct Buffers {
    pub file: [u8; 65536],
    pub memory: [u16; 32768],
    pub bytes: [u8; 65536],
    pub budgets: [u32; BAGS],
    pub restarts: [bool; BAGS],
    pub words: [u16; 4096],
    pub endings: [u8; BAGS],
    pub steps: [u32; BAGS],
}

impl Buffers {
    // Buffers of zeros.
    pub fn new() -> Buffers {
        Buffers {
            file: [0; 65536],
            memory: [0; 32768],
            bytes: [0; 65536],
            budgets: [0; BAGS],
            restarts: [false; BAGS],
            words: [0; 4096],
            endings: [0; BAGS],
            steps: [0; BAGS],
        }
    }
}
