// The blocks of a joined file, made one by one: the operations of both files are read in place.
ghost use Rattle.std.specs.Prelude.{◌≡◌, ◌+◌, ◌*◌, ◌<◌, ◌≤◌, length, take, drop};
ghost use Rattle.program.specs.Bytes.{over};
ghost use Rattle.program.specs.File.{operation_count};
ghost use Rattle.program.specs.Layout.{bytes_of};
ghost use Rattle.program.specs.Write.{blocks_for};
ghost use Rattle.program.specs.declared.layout.Layout.TheVariants.{Consecutive};
ghost use Rattle.join.specs.Join.{joined_bytes, joined_file, Joinable};

use codec::encode::encode;
use loader::block::write_block;
use loader::bytes::copy;
use loader::file::{last_at, operation_at, operation_count};

// Two accepted files whose operations fit one file together; the first has `count` of them.
#[derive(Clone, Copy)]
pub struct Pair<'a> {
    pub first: &'a [u8],
    pub second: &'a [u8],
    pub count: usize,
    ghost joinable: { Joinable first.now second.now count },
}

impl Pair<'_> {
    // The bytes of operation i of the joined program: the last operation of a DO of the second file moves on by the first's count, in bytes 4 and 5.
    fn bytes_of(&self, i: usize) -> [u8; 8]
        requires { i < self.now.count + operation_count self.now.second.now }
        ensures { result ≡ bytes_of Consecutive (joined_bytes self.now.first.now self.now.second.now) i }
    {
        if i < self.count {
            return encode(operation_at(self.first, i));
        }
        let j = i - self.count;
        let mut bytes = encode(operation_at(self.second, j));
        let last = last_at(self.second, j);
        if 0 < last {
            let moved = self.count + last;
            let [low, high] = (moved as u16).to_le_bytes();
            bytes[4] = low;
            bytes[5] = high;
        }
        bytes
    }

    // The bytes of `count` operations of the joined program from operation `from` on, at the start of `part`; the rest of `part` stays.
    fn fill(&self, from: usize, count: usize, part: &mut [u8])
        requires count_bound { from + count ≤ self.now.count + operation_count self.now.second.now }
        requires count_in_bounds { 8 * count ≤ length part.old }
        ensures { part.new ≡ over (take (8 * count) (drop (8 * from) (joined_bytes self.now.first.now self.now.second.now))) part.old }
    {
        for j in 0..count {
            let bytes = self.bytes_of(from + j);
            copy(&bytes, &mut part[8 * j..]);
        }
    }

    // The blocks of the joined file, each through the part of `out` that starts where the one before it ends; the rest of `out` stays.
    pub fn write(&self, out: &mut [u8])
        requires { 512 * blocks_for (8 * (self.now.count + operation_count self.now.second.now)) ≤ length out.old }
        ensures { out.new ≡ over (joined_file self.now.first.now self.now.second.now) out.old }
    {
        let total = self.count + operation_count(self.second);
        let mut part = [0u8; 504];
        for k in 0..total.div_ceil(63) {
            let some = (total - 63 * k).min(63);
            self.fill(63 * k, some, &mut part);
            write_block(k, &part[..8 * some], &mut out[512 * k..]);
        }
    }
}
