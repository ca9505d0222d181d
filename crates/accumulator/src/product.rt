// Words read as numbers, and their products.
ghost use Rattle.std.specs.Prelude.{◌≡◌};
ghost use Rattle.integers.specs.Bits.{signed_of};
ghost use Rattle.accumulator.specs.Product.{read_of, product_of, square_of};

// A factor: a word, and whether it is read as unsigned.
#[derive(Clone, Copy, Debug, PartialEq, Eq)]
pub struct Factor {
    pub word: u16,
    pub unsigned: bool,
}

// A word read as signed.
pub fn signed(word: u16) -> i64
    ensures { result ≡ signed_of 16 word }
{
    i64::from(word.cast_signed())
}

// A factor's number.
pub fn read(factor: Factor) -> i64
    ensures { result ≡ read_of factor }
{
    if factor.unsigned {
        factor.word as i64
    } else {
        signed(factor.word)
    }
}

// The product of two factors, doubled unless the mode is integer (IF = 1).
pub fn product(integer: bool, m: Factor, n: Factor) -> i64
    ensures { result ≡ product_of integer m n }
{
    let p = read(m) * read(n);
    if integer { p } else { p * 2 }
}

// The square of a factor.
pub fn square(integer: bool, m: Factor) -> i64
    ensures { result ≡ square_of integer m }
{
    product(integer, m, m)
}
