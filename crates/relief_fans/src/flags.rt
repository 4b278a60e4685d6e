// Flags of the four fans: CDL.Logical.Not, Or, And and Xor fan by fan, CDL.Logical.MultiAnd and MultiOr over the fans.
ghost use Rattle.std.specs.Prelude.{◌≡◌};
ghost use Rattle.relief_fans.specs.Flags.{not_each, or_each, and_each, xor_each, equal_each, all_of, any_of};

use std::array;

#[tactic(auto, unfolding(crate::specs::Flags::not_each))]
pub fn not_each(a: [bool; 4]) -> [bool; 4]
    ensures { result ≡ not_each a }
{
    a.map(|on| !on)
}

#[tactic(auto, unfolding(crate::specs::Flags::or_each))]
pub fn or_each(a: [bool; 4], b: [bool; 4]) -> [bool; 4]
    ensures { result ≡ or_each a b }
{
    array::from_fn(|i| a[i] | b[i])
}

// Each flag and one flag for all fans (CDL.Routing.BooleanScalarReplicator before the And).
#[tactic(auto, unfolding(crate::specs::Flags::and_each))]
pub fn and_each(a: [bool; 4], u: bool) -> [bool; 4]
    ensures { result ≡ and_each a u }
{
    a.map(|on| on & u)
}

#[tactic(auto, unfolding(crate::specs::Flags::xor_each))]
pub fn xor_each(a: [bool; 4], b: [bool; 4]) -> [bool; 4]
    ensures { result ≡ xor_each a b }
{
    array::from_fn(|i| a[i] != b[i])
}

#[tactic(auto, unfolding(crate::specs::Flags::equal_each))]
pub fn equal_each(a: [bool; 4], b: [bool; 4]) -> [bool; 4]
    ensures { result ≡ equal_each a b }
{
    array::from_fn(|i| a[i] == b[i])
}

#[tactic(auto, unfolding(crate::specs::Flags::all_of))]
pub fn all_of(a: [bool; 4]) -> bool
    ensures { result ≡ all_of a }
{
    a.iter().all(|&on| on)
}

#[tactic(auto, unfolding(crate::specs::Flags::any_of))]
pub fn any_of(a: [bool; 4]) -> bool
    ensures { result ≡ any_of a }
{
    a.iter().any(|&on| on)
}
