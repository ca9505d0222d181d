// What a service asks for, read in its order.
use address::word::WordIndex;
use input::{Unfilled, read_whole};
use service::call::Window;
use std::io::Stdin;
use stream::memory::fill;
use stream::part::part;
use stream::stop::Stop;

// The window, and how many items each slice has.
#[derive(Clone, Copy)]
pub struct Sizes {
    pub window: Window,
    pub budgets: usize,
    pub restarts: usize,
    pub words: usize,
    pub endings: usize,
    pub steps: usize,
}

// Words of 2 bytes, through a slice that has room for memory's.
pub fn read_words(stdin: &mut Stdin, bytes: &mut [u8], words: &mut [u16]) -> Result<(), Stop> {
    let size = 2 * words.len();
    let bytes = part(bytes, size)?;
    read_whole(stdin, bytes)?;
    fill(words, bytes);
    Ok(())
}

// A type whose values are read one by one.
pub trait Listed: Copy {
    fn read(stdin: &mut Stdin) -> Result<Self, Unfilled>;
}

// A number of 4 bytes.
impl Listed for u32 {
    fn read(stdin: &mut Stdin) -> Result<u32, Unfilled> {
        let mut bytes = [0u8; 4];
        read_whole(stdin, &mut bytes)?;
        Ok(u32::from_le_bytes(bytes))
    }
}

// A restart of 1 byte, 0 where the bag goes on.
impl Listed for bool {
    fn read(stdin: &mut Stdin) -> Result<bool, Unfilled> {
        let mut bytes = [0u8; 1];
        read_whole(stdin, &mut bytes)?;
        Ok(bytes[0] != 0)
    }
}

// The items of a list, one after the other.
pub fn read_items<T: Listed>(stdin: &mut Stdin, items: &mut [T]) -> Result<(), Unfilled> {
    for item in items.iter_mut() {
        *item = T::read(stdin)?;
    }
    Ok(())
}

// The seven numbers before the bags.
pub fn read_sizes(stdin: &mut Stdin) -> Result<Sizes, Unfilled> {
    let mut numbers = [0u32; 7];
    read_items(stdin, &mut numbers)?;
    let [first, size, budgets, restarts, words, endings, steps] = numbers;
    let window = Window {
        first: WordIndex(first as usize),
        size: size as usize,
    };
    Ok(Sizes {
        window,
        budgets: budgets as usize,
        restarts: restarts as usize,
        words: words as usize,
        endings: endings as usize,
        steps: steps as usize,
    })
}
