// Words of memory from their bytes.
ghost use Rattle.std.specs.Prelude.{◌≡◌, ◌*◌, ◌≤◌, length};
ghost use Rattle.stream.specs.Memory.{memory_in};

use crate::bytes::two_bytes_at;

// Memory holds the words of the bytes.
pub fn fill(memory: &mut [u16], bytes: &[u8])
    requires { 2 * length memory.old ≤ length bytes.now }
    ensures { memory.new ≡ memory_in bytes.now (length memory.old) }
{
    for (i, word) in memory.iter_mut().enumerate() {
        *word = two_bytes_at(bytes, 2 * i);
    }
}
