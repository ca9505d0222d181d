// The shift rule.
ghost use Rattle.std.specs.Prelude.{◌≡◌, true};
ghost use Rattle.accumulator.specs.Limit.{is_accumulator};
ghost use Rattle.accumulator.specs.Shift.{shift_of, shift_allowed};

// Whether a shift by n is allowed; one beyond is trap 3.
#[tactic(auto, unfolding(crate::specs::Shift::shift_allowed))]
pub fn is_allowed(n: i64) -> bool
    ensures { result ≡ shift_allowed n }
{
    (-16..=16).contains(&n)
}

// v shifted by n: to the right for n above 0, to the left below. What it asks is what `is_accumulator` and `is_allowed` test.
pub fn shift(v: i64, n: i64) -> i64
    requires v_value { is_accumulator v ≡ true }
    requires n_value { shift_allowed n ≡ true }
    ensures { result ≡ shift_of v n }
{
    if n < 0 { v * (1 << -n) } else { v >> n }
}
