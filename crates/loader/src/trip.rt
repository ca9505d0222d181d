// Round trips: a file through the loader and the writer, operations through the writer and the loader. What comes out is what went in.
ghost use Rattle.program.specs.Trip.{Rewrites, Reloads};

use crate::file::{check_file, load};
use crate::write::{check_program, write};
use program::answer::Refusal;

// A file, loaded into `operations` and written again: the same file at the start of `out`.
pub fn rewrite(file: &[u8], operations: &mut [u8], out: &mut [u8]) -> Result<usize, Refusal>
    ensures { Rewrites file.now operations.old out.old result operations.new out.new }
{
    check_file(file)?;
    if out.len() < file.len() {
        return Err(Refusal::Room);
    }
    let size = load(file, operations)?;
    write(&operations[..size], out)
}

// Operations, written to `out` and loaded again: the same operations at the start of `again`.
pub fn reload(operations: &[u8], out: &mut [u8], again: &mut [u8]) -> Result<usize, Refusal>
    ensures { Reloads operations.now out.old again.old result out.new again.new }
{
    check_program(operations)?;
    if again.len() < operations.len() {
        return Err(Refusal::Room);
    }
    let size = write(operations, out)?;
    load(&out[..size], again)
}
