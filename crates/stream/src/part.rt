// As much of a buffer as a case asks for.
ghost use Rattle.std.specs.Prelude.{◌≡◌, leb, length, take, is_ok, IfOk, IfErr};
ghost use Rattle.report.specs.declared.notice.Notice.TheVariants.{TooLarge};

use report::notice::Notice;

// The first n items, unless there is room for fewer.
pub fn part<T>(buffer: &mut [T], n: usize) -> Result<&mut [T], Notice>
    ensures content { IfOk result (λ part. part.now ≡ take n buffer.old) }
    ensures variant { is_ok result ≡ leb n (length buffer.old) }
    ensures notice { IfErr result (λ notice. notice ≡ TooLarge) }
{
    buffer.get_mut(..n).ok_or(Notice::TooLarge)
}
