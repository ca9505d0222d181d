// Why a stream of cases stops.
ghost use Rattle.std.specs.Prelude.{◌≡◌, IsOk, IsErr, IfErr};
ghost use Rattle.stream.specs.Stop.{stop_of, IsFailed};
ghost use Rattle.stream.specs.declared.stop.Stop.TheVariants.{Ended, Told, Failed};

use input::Unfilled;
use lines::line::notice_line;
use report::notice::Notice;
use std::io;
use std::io::Write;

// Why no further case is answered.
#[derive(Debug, Drop)]
pub enum Stop {
    // the input ended before a case
    Ended,
    // a case has no answer: its notice is the last line
    Told(Notice),
    // a read or a write failed
    Failed(io::Error),
}

impl From<Notice> for Stop {
    ghost from_gives = { λ notice r. r ≡ Told notice };

    fn from(notice: Notice) -> Stop {
        Stop::Told(notice)
    }
}

impl From<io::Error> for Stop {
    ghost from_gives = { λ error r. r ≡ Failed error };

    fn from(error: io::Error) -> Stop {
        Stop::Failed(error)
    }
}

impl From<Unfilled> for Stop {
    ghost from_gives = { λ unfilled r. r ≡ stop_of unfilled };

    fn from(unfilled: Unfilled) -> Stop {
        match unfilled {
            Unfilled::Short => Stop::Told(Notice::Short),
            Unfilled::Failed(error) => Stop::Failed(error),
        }
    }
}

impl Stop {
    // The stream's last line, if it has one, or the error.
    pub fn tell<W: Write>(self, mut output: W) -> io::Result<()>
    where
        W: Drop,
        ensures ended { self ≡ Ended → IsOk result }
        ensures failed { IsFailed self → IsErr result }
        ensures error { IsFailed self → IfErr result (λ e. self ≡ Failed e) }
    {
        match self {
            Stop::Ended => Ok(()),
            Stop::Told(notice) => output.write_all(notice_line(notice).as_bytes()),
            Stop::Failed(error) => Err(error),
        }
    }
}
