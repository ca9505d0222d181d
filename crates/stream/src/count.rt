// What stands in a lent slice before a call.
ghost use Rattle.std.specs.Prelude.{ℕ, ◌<◌, ◌%◌, length, slice_index_or};

// Item i is i modulo 251.
pub fn count_up<T: Copy + From<u8>>(slice: &mut [T])
    ensures { (k : ℕ) (d : T) → k < length slice.new → T.from_gives (k % 251) (slice_index_or slice.new k d) }
{
    for (i, item) in slice.iter_mut().enumerate() {
        *item = T::from((i % 251) as u8);
    }
}
