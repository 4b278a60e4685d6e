// CDL.Reals.Switch, CDL.Logical.Switch and CDL.Integers.Switch, one block over three types; CDL.Conversions.BooleanToReal.
ghost use Rattle.std.specs.Prelude.{◌≡◌};
ghost use Rattle.reals.specs.Switch.{switch, bool_to_real};

// a where u is true, b where it is false.
#[tactic(auto, unfolding(crate::specs::Switch::switch))]
pub fn switch<T: Copy>(u: bool, a: T, b: T) -> T
    ensures { result ≡ switch u a b }
{
    if u { a } else { b }
}

// 1 where the value is true, 0 where it is false.
#[tactic(auto, using(crate::proofs::Signs::bool_told))]
pub fn bool_to_real(value: bool) -> f64
    ensures { result ≡ bool_to_real value }
{
    f64::from(value)
}
