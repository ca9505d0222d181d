// Program files: the checks and the loader.
ghost use Rattle.std.specs.Prelude.{◌≡◌, ◌<◌, ◌≤◌, length, get_or};
ghost use Rattle.operations.specs.declared.operation.Operation.{Operation};
ghost use Rattle.program.specs.Answer.{answer_number};
ghost use Rattle.program.specs.Bytes.{over};
ghost use Rattle.program.specs.File.{is_file_size, blocks_refusal, operation_count, file_refusal, program_of, bodies_of, Loads};
ghost use Rattle.program.specs.Placement.{role_at, is_repeat, last_of};

use crate::block::{check_block, copy_body};
use crate::layout::{Operations, operation_in};
use crate::role::{is_repeat, last_of, role_in};
use operations::operation::Operation;
use program::answer::Refusal;
use program::layout::Layout;

// Whether n bytes are 1 to 64 whole blocks of 512.
fn is_file_size(n: usize) -> bool
    ensures { result ≡ is_file_size n }
{
    n % 512 == 0 && (1..=64).contains(&(n / 512))
}

// Refusals 1, 2 and 3: the size, and then each block on its own part of the file.
fn check_blocks(file: &[u8]) -> Result<(), Refusal>
    ensures { answer_number result ≡ blocks_refusal file.now }
{
    if !is_file_size(file.len()) {
        return Err(Refusal::Size);
    }
    let (blocks, _) = file.as_chunks::<512>();
    for (k, block) in blocks.iter().enumerate() {
        check_block(block, k, k + 1 == blocks.len())?;
    }
    Ok(())
}

// The number of operations in a file whose blocks are right.
pub fn operation_count(file: &[u8]) -> usize
    requires { blocks_refusal file.now ≡ 0 }
    ensures { result ≡ operation_count file.now }
{
    let before = file.len() / 512 - 1;
    63 * before + usize::from(file[512 * before + 2])
}

// Refusals 1 to 5 of a file.
pub fn check_file(file: &[u8]) -> Result<(), Refusal>
    ensures { answer_number result ≡ file_refusal file.now }
{
    check_blocks(file)?;
    let operations = Operations {
        bytes: file,
        layout: Layout::Blocks,
        count: operation_count(file),
    };
    operations.check()
}

// Operation i of an accepted file, read in place: the i-th of its program. Its fields are not checked again.
pub fn operation_at(file: &[u8], i: usize) -> Operation
    requires file_value { file_refusal file.now ≡ 0 }
    requires i_bound { i < operation_count file.now }
    ensures { (other : Operation) → result ≡ get_or (program_of file.now) i other }
{
    operation_in(file, Layout::Blocks, i)
}

// The last operation of the loop that operation i of an accepted file begins; 0 where it is no DO.
pub fn last_at(file: &[u8], i: usize) -> usize
    requires file_value { file_refusal file.now ≡ 0 }
    requires i_bound { i < operation_count file.now }
    ensures { result ≡ last_of (role_at (program_of file.now) i) }
{
    last_of(role_in(file, Layout::Blocks, i))
}

// Whether operation i of an accepted file is a REPEAT.
pub fn repeats_at(file: &[u8], i: usize) -> bool
    requires file_value { file_refusal file.now ≡ 0 }
    requires i_bound { i < operation_count file.now }
    ensures { result ≡ is_repeat (role_at (program_of file.now) i) }
{
    is_repeat(role_in(file, Layout::Blocks, i))
}

// The operations' bytes of all blocks at the start of `to`; the rest of `to` stays.
fn copy_bodies(file: &[u8], to: &mut [u8])
    requires file_value { blocks_refusal file.now ≡ 0 }
    requires file_in_bounds { length (bodies_of file.now) ≤ length to.old }
    ensures { to.new ≡ over (bodies_of file.now) to.old }
{
    let (blocks, _) = file.as_chunks::<512>();
    let mut n = 0;
    for block in blocks {
        n += copy_body(block, &mut to[n..]);
    }
}

// The operations of a file, 8 bytes each, at the start of `operations`; what lies past them stays.
pub fn load(file: &[u8], operations: &mut [u8]) -> Result<usize, Refusal>
    ensures { Loads file.now operations.old result operations.new }
{
    check_file(file)?;
    let size = 8 * operation_count(file);
    if operations.len() < size {
        return Err(Refusal::Room);
    }
    copy_bodies(file, operations);
    Ok(size)
}
