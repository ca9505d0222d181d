// A header, read from an input.
ghost use Rattle.std.specs.Prelude.{◌≡◌, IfOk, IsErrOf, take, drop, replicate};
ghost use Rattle.std.specs.Io.KnownBytes.{Consumes, IsAtEnd};
ghost use Rattle.stream.specs.declared.stop.Stop.TheVariants.{Ended};

use crate::header::Header;
use crate::stop::Stop;
use input::read_full;
use report::notice::Notice;
use std::io::Read;

// A header of the short form. An input that ends before it has no further case; one that ends within it breaks off.
pub fn read_header<R: Read>(input: &mut R) -> Result<Header, Stop>
    ensures content { IfOk result (λ header. Consumes (R.remaining input.old) (R.remaining input.new) (take 112 header.bytes)) }
    ensures zeros { IfOk result (λ header. drop 112 header.bytes ≡ replicate 208 0) }
    ensures end { IsErrOf result Ended → IsAtEnd (R.remaining input.old) }
{
    let mut bytes = [0u8; 320];
    match read_full(input, &mut bytes[..112])? {
        0 => Err(Stop::Ended),
        112 => Ok(Header::new(bytes)),
        _ => Err(Stop::Told(Notice::Short)),
    }
}
