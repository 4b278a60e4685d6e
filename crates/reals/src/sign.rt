// What is asked of a number before it is worked with: whether it is finite, its sign bit; and its absolute value.
ghost use Rattle.std.specs.Prelude.{◌≡◌};
ghost use Rattle.std.specs.Float.Ieee.Scale.{finite};
ghost use Rattle.reals.specs.Sign.{is_sign_negative, abs};

// Neither a NaN nor an infinity.
#[tactic(auto, using(crate::proofs::Signs::finite_told))]
pub fn is_finite(x: f64) -> bool
    ensures { result ≡ finite x }
{
    x.is_finite()
}

// The sign bit, that of -0.0 too. The library asks it of numbers only; a NaN counts as having none.
#[tactic(auto, using(crate::proofs::Signs::sign_told, crate::proofs::Signs::nan_unsigned))]
pub fn is_sign_negative(x: f64) -> bool
    ensures { result ≡ is_sign_negative x }
{
    !x.is_nan() && x.is_sign_negative()
}

// CDL.Reals.Abs.
#[tactic(auto, using(crate::proofs::Signs::sign_cleared))]
pub fn abs(x: f64) -> f64
    ensures { result ≡ abs x }
{
    x.abs()
}
