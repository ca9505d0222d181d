// The call that joins two program files, which asks nothing.
ghost use Rattle.join.specs.Call.{Joins};

use crate::joined::Pair;
use loader::file::{check_file, operation_count};
use program::answer::Refusal;

// A file of the first's operations and then the second's, at the start of `out`; what lies past it stays. Run from its first operation it is the first
// program and, where that is done, the second from the state and memory left. A refusal leaves `out` as it came: the first file's, the second's, 9 for more
// than 4,032 operations together, 8 for too little room. The number does not say which file it is about: `check_file` does.
pub fn join(first: &[u8], second: &[u8], out: &mut [u8]) -> Result<usize, Refusal>
    ensures { Joins first.now second.now out.old result out.new }
{
    check_file(first)?;
    check_file(second)?;
    let count = operation_count(first);
    let total = count + operation_count(second);
    if 4032 < total {
        return Err(Refusal::Together);
    }
    let size = 512 * total.div_ceil(63);
    if out.len() < size {
        return Err(Refusal::Room);
    }
    let pair = Pair {
        first,
        second,
        count,
    };
    pair.write(out);
    Ok(size)
}
