// A line that texts are put on, one after the other.
ghost use Rattle.std.specs.Prelude.{◌≡◌, ◌+◌, ◌*◌, ◌≤◌, ℕ, List, [], ◌++◌, length};
ghost use Rattle.text.specs.Text.{field_of, fields_of};

use crate::item::Item;
use arrayvec::ArrayVec;
use std::marker::Model;

// The most bytes of a line. The longest is that of a run over decoded operations, with 20 digits for each number 640 bytes: 9 of the ending, 21 of the
// steps, 376 of the state and the memory's check, 2 of the set, 21 of the registers' check, 189 of the task counts, 21 of the slice's check, 1 of the line's end.
pub const LINE: usize = 640;

// The bytes that stand on a line.
#[derive(Drop)]
pub struct Line {
    bytes: ArrayVec<u8, LINE>,
}

impl Model for Line {
    ghost Value = { List ℕ };

    ghost view = { λ l. l.bytes.items };
}

impl Line {
    // A line with nothing on it.
    pub fn new() -> Line
        ensures { result ≡ [] }
    {
        Line {
            bytes: ArrayVec::new(),
        }
    }

    // The bytes that stand on the line, in order.
    pub fn as_bytes(&self) -> &[u8]
        ensures content { result.now ≡ self.now }
        ensures upper_bound { length result.now ≤ 640 }
    {
        self.bytes.as_slice()
    }

    // A text.
    pub fn push_text(&mut self, text: &[u8])
        requires { length self.old + length text.now ≤ 640 }
        ensures { self.new ≡ self.old ++ text.now }
    {
        self.bytes.try_extend_from_slice(text).unwrap()
    }

    // A field: a space and the item's text.
    pub fn push_field<T: Item>(&mut self, item: T)
        requires { length self.old + (T.most + 1) ≤ 640 }
        ensures content { self.new ≡ self.old ++ field_of (T.text item) }
        ensures upper_bound { length self.new ≤ length self.old + (T.most + 1) }
    {
        self.push_text(b" ");
        item.push(self)
    }

    // A field for each item.
    pub fn push_fields<T: Item>(&mut self, items: &[T])
        requires { length self.old + (T.most + 1) * length items.now ≤ 640 }
        ensures content { self.new ≡ self.old ++ fields_of T.text items.now }
        ensures upper_bound { length self.new ≤ length self.old + (T.most + 1) * length items.now }
    {
        for item in items {
            self.push_field(*item);
        }
    }
}
