// One block of 512 bytes: its sum and its header, checked on that block's part of the file, and the block written into a part of the output.
ghost use Rattle.std.specs.Prelude.{◌≡◌, ◌++◌, ◌*◌, ◌<◌, ◌≤◌, length, drop};
ghost use Rattle.operations.specs.Bytes.{byte};
ghost use Rattle.program.specs.Answer.{answer_number};
ghost use Rattle.program.specs.Bytes.{over};
ghost use Rattle.program.specs.Block.{block_sum, are_header_fields, is_header, block_refusal, body_of, header_of, unsummed_of, block_of};

use crate::bytes::{copy, is_zero, total, word_at_byte};
use program::answer::Refusal;

// The sum of a block modulo 65,536, with bytes 4 and 5 as 0.
fn block_sum(block: &[u8; 512]) -> u16
    ensures { result ≡ block_sum block.now }
{
    ((total(&block[..4]) + total(&block[6..])) % 65536) as u16
}

// The number, the count and the zero bytes in the header of block k, which is the file's last or is not.
fn are_header_fields(block: &[u8; 512], k: usize, last: bool) -> bool
    ensures { result ≡ are_header_fields block.now k last }
{
    let n = block[2];
    usize::from(word_at_byte(block, 0)) == k
        && (1..=63).contains(&n)
        && (last || n == 63)
        && block[3] == 0
        && block[6] == 0
        && block[7] == 0
}

// The header of block k, and the zeros after its operations.
fn is_header(block: &[u8; 512], k: usize, last: bool) -> bool
    ensures { result ≡ is_header block.now k last }
{
    are_header_fields(block, k, last) && is_zero(&block[8 + 8 * usize::from(block[2])..])
}

// Block k: its sum, and then its header.
#[tactic(auto, unfolding(program::specs::Block::block_refusal))]
pub fn check_block(block: &[u8; 512], k: usize, last: bool) -> Result<(), Refusal>
    ensures { answer_number result ≡ block_refusal block.now k last }
{
    if word_at_byte(block, 4) != block_sum(block) {
        return Err(Refusal::Sum);
    }
    if is_header(block, k, last) {
        Ok(())
    } else {
        Err(Refusal::Header)
    }
}

// The operations' bytes of a block at the start of `to`, and how many they are; the rest of `to` stays.
pub fn copy_body(block: &[u8; 512], to: &mut [u8]) -> usize
    requires block_bound { byte block.now 2 ≤ 63 }
    requires block_in_bounds { 8 * byte block.now 2 ≤ length to.old }
    ensures value { result ≡ length (body_of block.now) }
    ensures to_after { to.new ≡ over (body_of block.now) to.old }
{
    let n = 8 * usize::from(block[2]);
    copy(&block[8..8 + n], to);
    n
}

// The header of block k with n operations, its sum 0.
fn put_header(k: u16, n: u8, out: &mut [u8])
    requires { 8 ≤ length out.old }
    ensures { out.new ≡ header_of k n ++ drop 8 out.old }
{
    let [low, high] = k.to_le_bytes();
    out[0] = low;
    out[1] = high;
    out[2] = n;
    out[3] = 0;
    out[4] = 0;
    out[5] = 0;
    out[6] = 0;
    out[7] = 0;
}

// Block k without its sum.
fn put_unsummed(k: u16, body: &[u8], out: &mut [u8])
    requires body_len_bound { length body.now ≤ 504 }
    requires in_bounds { 512 ≤ length out.old }
    ensures { out.new ≡ unsummed_of k body.now ++ drop 512 out.old }
{
    let end = 8 + body.len();
    put_header(k, (body.len() / 8) as u8, out);
    copy(body, &mut out[8..]);
    out[end..512].fill(0);
}

// Block k of these operations' bytes at the start of `out`; the rest of `out` stays.
pub fn write_block(k: usize, body: &[u8], out: &mut [u8])
    requires k_bound { k < 65536 }
    requires body_len_bound { length body.now ≤ 504 }
    requires in_bounds { 512 ≤ length out.old }
    ensures { out.new ≡ over (block_of k body.now) out.old }
{
    put_unsummed(k as u16, body, out);
    let sum = block_sum(out.first_chunk::<512>().unwrap());
    let [low, high] = sum.to_le_bytes();
    out[4] = low;
    out[5] = high;
}
