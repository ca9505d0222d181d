// Bytes read until a slice is full or the input ends.
#![tactic(auto)]

ghost use Rattle.std.specs.Prelude.{◌≡◌, ◌<◌, ◌≤◌, IfOk, OnOk, IsErrOf, length, take};
ghost use Rattle.std.specs.Io.KnownBytes.{Consumes, IsAtEnd};
ghost use Rattle.input.specs.declared.Unfilled.TheVariants.{Failed};

use std::io;
use std::io::Read;

// Why a slice was not filled.
#[derive(Debug, Drop)]
pub enum Unfilled {
    // the input ended before
    Short,
    // a read failed
    Failed(io::Error),
}

impl From<io::Error> for Unfilled {
    ghost from_gives = { λ e r. r ≡ Failed e };

    fn from(error: io::Error) -> Unfilled {
        Unfilled::Failed(error)
    }
}

// Reads until the slice is full or the input ends; how many bytes were read.
pub fn read_full<R: Read>(input: &mut R, bytes: &mut [u8]) -> io::Result<usize>
    ensures upper_bound { IfOk result (λ n. n ≤ length bytes.new) }
    ensures content { IfOk result (λ n. Consumes (R.remaining input.old) (R.remaining input.new) (take n bytes.new)) }
    ensures end { IfOk result (λ n. n < length bytes.new → IsAtEnd (R.remaining input.new)) }
{
    let mut done = 0;
    while done < bytes.len() {
        let n = input.read(&mut bytes[done..])?;
        if n == 0 {
            break;
        }
        done += n;
    }
    Ok(done)
}

// Reads until the slice is full.
pub fn read_whole<R: Read>(input: &mut R, bytes: &mut [u8]) -> Result<(), Unfilled>
    ensures content { OnOk result (Consumes (R.remaining input.old) (R.remaining input.new) bytes.new) }
    ensures end { IsErrOf result Unfilled.Short → IsAtEnd (R.remaining input.new) }
{
    if read_full(input, bytes)? < bytes.len() {
        return Err(Unfilled::Short);
    }
    Ok(())
}
