// The boards of a case that combines stretches, 9 bytes each: A, then SA.
ghost use Rattle.std.specs.Prelude.{◌≡◌, ◌+◌, ◌*◌, ◌<◌, ◌≤◌, length};
ghost use Rattle.stream.specs.Boards.{board_in, entry_in, boards_in};

use crate::bytes::eight_bytes_at;
use combine::board::Board;

// Board i.
fn board(bytes: &[u8], i: usize) -> Board
    requires { 9 * i + 8 < length bytes.now }
    ensures { result ≡ board_in bytes.now i }
{
    Board {
        a: eight_bytes_at(bytes, 9 * i),
        sa: bytes[9 * i + 8] != 0,
    }
}

// Entry i of the call: board i, or of no run from the count on.
fn entry(bytes: &[u8], count: usize, i: usize) -> Board
    requires { 9 * count ≤ length bytes.now }
    ensures { result ≡ entry_in bytes.now count i }
{
    if i < count {
        board(bytes, i)
    } else {
        Board::none()
    }
}

// The eight entries. They are written out: `map` and `array::from_fn` say of their closure's calls eight steps from state to state, and the check makes no list of them.
#[tactic(auto, unfolding(crate::specs::Boards::boards_in))]
pub fn boards(bytes: &[u8], count: usize) -> [Board; 8]
    requires { 9 * count ≤ length bytes.now }
    ensures { result ≡ boards_in bytes.now count }
{
    [
        entry(bytes, count, 0),
        entry(bytes, count, 1),
        entry(bytes, count, 2),
        entry(bytes, count, 3),
        entry(bytes, count, 4),
        entry(bytes, count, 5),
        entry(bytes, count, 6),
        entry(bytes, count, 7),
    ]
}
