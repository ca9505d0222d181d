// What a board hands over.
ghost use Rattle.std.specs.Prelude.{◌≡◌};
ghost use Rattle.combine.specs.Boards.{no_board, board_of};

use state::state::State;

// A and SA at the end of a board's run.
#[derive(Clone, Copy, Debug, PartialEq, Eq)]
pub struct Board {
    pub a: i64,
    pub sa: bool,
}

impl Board {
    // Of the state that a run returned.
    pub fn of(state: State) -> Board
        ensures { result ≡ board_of state }
    {
        Board {
            a: state.core.a,
            sa: state.sa,
        }
    }

    // Of no run: A is 0 and SA clear. It fills the entries past the count.
    pub fn none() -> Board
        ensures { result ≡ no_board }
    {
        Board { a: 0, sa: false }
    }
}
