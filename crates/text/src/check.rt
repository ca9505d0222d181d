// The check numbers of lists.
ghost use Rattle.std.specs.Prelude.{◌≡◌, ◌+◌, ◌*◌, ◌%◌, ◌^◌, ℕ, List, [], ◌∷◌, refl};
ghost use Rattle.text.specs.Text.{check_from};

// A type whose values go into a check. The three impls stay: under one bound, as `u32: From<T>`, a conversion is a relation, so each caller would prove the list of numbers,
// where here `numbers s` computes to `s`.
pub trait Checked: Copy {
    // The number that a value counts as.
    ghost number: { Self → ℕ };

    // The numbers of a list of values.
    ghost numbers: { List Self → List ℕ };

    fn number(self) -> u32
        ensures { result ≡ number self };

    ghost none: { numbers [] ≡ [] };

    ghost first: { (x : Self) (s : List Self) → numbers (x ∷ s) ≡ number x ∷ numbers s };
}

impl Checked for u8 {
    ghost number = { λ x. x };

    ghost numbers = { λ s. s };

    ghost none = { refl };

    ghost first = { λ _ _. refl };

    fn number(self) -> u32 {
        u32::from(self)
    }
}

impl Checked for u16 {
    ghost number = { λ x. x };

    ghost numbers = { λ s. s };

    ghost none = { refl };

    ghost first = { λ _ _. refl };

    fn number(self) -> u32 {
        u32::from(self)
    }
}

impl Checked for u32 {
    ghost number = { λ x. x };

    ghost numbers = { λ s. s };

    ghost none = { refl };

    ghost first = { λ _ _. refl };

    fn number(self) -> u32 {
        self
    }
}

// The check with one number more: 31 h + x modulo 2^32.
pub fn next_check(h: u32, x: u32) -> u32
    ensures { result ≡ (31 * h + x) % 2 ^ 32 }
{
    h.wrapping_mul(31).wrapping_add(x)
}

// The check of a list, from h on.
pub fn check<T: Checked>(h: u32, items: &[T]) -> u32
    ensures { result ≡ check_from h (T.numbers items.now) }
{
    let mut check = h;
    for item in items {
        check = next_check(check, item.number());
    }
    check
}
