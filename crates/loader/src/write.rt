// Program files: the writer.
ghost use Rattle.std.specs.Prelude.{◌≡◌, ◌*◌, ◌≤◌, length};
ghost use Rattle.program.specs.Answer.{answer_number};
ghost use Rattle.program.specs.Bytes.{over};
ghost use Rattle.program.specs.Write.{is_operations_size, blocks_for, file_of, program_refusal, Writes};

use crate::block::write_block;
use crate::layout::Operations;
use program::answer::Refusal;
use program::layout::Layout;

// The blocks of a file, each through the part of `out` that starts where the one before it ends; the rest of `out` stays.
// No chunks(504).enumerate(): a loop over it has no index for its invariant to speak of.
fn write_blocks(operations: &[u8], out: &mut [u8])
    requires operations_len_bound { length operations.now ≤ 32256 }
    requires operations_in_bounds { 512 * blocks_for (length operations.now) ≤ length out.old }
    ensures { out.new ≡ over (file_of operations.now) out.old }
{
    for k in 0..operations.len().div_ceil(504) {
        let end = operations.len().min(504 * k + 504);
        write_block(k, &operations[504 * k..end], &mut out[512 * k..]);
    }
}

fn is_operations_size(n: usize) -> bool
    ensures { result ≡ is_operations_size n }
{
    n % 8 == 0 && (1..=4032).contains(&(n / 8))
}

// Refusals 1, 4 and 5 of operations, 8 bytes each.
pub fn check_program(operations: &[u8]) -> Result<(), Refusal>
    ensures { answer_number result ≡ program_refusal operations.now }
{
    if !is_operations_size(operations.len()) {
        return Err(Refusal::Size);
    }
    let operations = Operations {
        bytes: operations,
        layout: Layout::Consecutive,
        count: operations.len() / 8,
    };
    operations.check()
}

// The bytes of the blocks that n bytes of operations fill.
fn file_size(n: usize) -> usize
    requires { n ≤ 32256 }
    ensures { result ≡ 512 * blocks_for n }
{
    512 * n.div_ceil(504)
}

// A file of these operations, 8 bytes each, at the start of `out`; what lies past it stays.
pub fn write(operations: &[u8], out: &mut [u8]) -> Result<usize, Refusal>
    ensures { Writes operations.now out.old result out.new }
{
    check_program(operations)?;
    let size = file_size(operations.len());
    if out.len() < size {
        return Err(Refusal::Room);
    }
    write_blocks(operations, out);
    Ok(size)
}
