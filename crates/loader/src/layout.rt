// Where the operations stand in bytes.
ghost use Rattle.std.specs.Prelude.{◌≡◌, ◌+◌, ◌≤◌, ◌<◌, length, take, drop};
ghost use Rattle.operations.specs.Decode.{decode_of};
ghost use Rattle.program.specs.Layout.{place_of, bytes_of, operation_in, span_of};

use codec::decode::{decode, operation_of};
use operations::operation::Operation;
use program::layout::Layout;

// The first byte of operation i.
pub fn place(layout: Layout, i: usize) -> usize
    requires { i < 65536 }
    ensures { result ≡ place_of layout i }
{
    match layout {
        Layout::Consecutive => 8 * i,
        Layout::Blocks => 512 * (i / 63) + 8 + 8 * (i % 63),
    }
}

// 8 bytes from `at` on.
fn bytes_at(s: &[u8], at: usize) -> [u8; 8]
    requires { at + 8 ≤ length s.now }
    ensures { result ≡ take 8 (drop at s.now) }
{
    s[at..at + 8].try_into().unwrap()
}

// The operation that the bytes of operation i are, unchecked.
pub fn operation_in(s: &[u8], layout: Layout, i: usize) -> Operation
    requires i_bound { i < 65536 }
    requires i_in_bounds { place_of layout i + 8 ≤ length s.now }
    ensures { result ≡ operation_in layout s.now i }
{
    operation_of(bytes_at(s, place(layout, i)))
}

// So many operations, as they stand in bytes: no more than a file can hold, and all of them inside.
#[derive(Clone, Copy)]
pub struct Operations<'a> {
    pub bytes: &'a [u8],
    pub layout: Layout,
    pub count: usize,
    ghost few: { count ≤ 4032 },
    ghost inside: { span_of layout count ≤ length bytes.now },
}

impl Operations<'_> {
    // Operation i, taken if it is one.
    pub fn decode(&self, i: usize) -> Option<Operation>
        requires { i < self.now.count }
        ensures { result ≡ decode_of (bytes_of self.now.layout self.now.bytes.now i) }
    {
        decode(bytes_at(self.bytes, place(self.layout, i)))
    }
}
