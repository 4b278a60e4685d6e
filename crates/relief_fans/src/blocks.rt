// A threshold, or a delay, for each of the four fans: the outputs at a row, and the blocks one row further. A pair for each type: a trait over both
// would be longer than these four lines.
ghost use Rattle.std.specs.Prelude.{◌≡◌};
ghost use Rattle.relief_fans.specs.Blocks.{threshold_outputs, threshold_updates, delay_outputs, delay_updates};

use logical::true_delay_on_init::TrueDelayOnInitState;
use reals::threshold::ThresholdState;
use std::array;

#[tactic(auto, unfolding(crate::specs::Blocks::threshold_outputs))]
pub fn threshold_outputs(blocks: [ThresholdState; 4], u: [f64; 4]) -> [bool; 4]
    ensures { result ≡ threshold_outputs blocks u }
{
    array::from_fn(|i| blocks[i].output(u[i]))
}

#[tactic(auto, unfolding(crate::specs::Blocks::threshold_updates))]
pub fn threshold_updates(blocks: [ThresholdState; 4], u: [f64; 4]) -> [ThresholdState; 4]
    ensures { result ≡ threshold_updates blocks u }
{
    array::from_fn(|i| blocks[i].update(u[i]))
}

#[tactic(auto, unfolding(crate::specs::Blocks::delay_outputs))]
pub fn delay_outputs(blocks: [TrueDelayOnInitState; 4], t: f64, u: [bool; 4]) -> [bool; 4]
    ensures { result ≡ delay_outputs blocks t u }
{
    array::from_fn(|i| blocks[i].output(t, u[i]))
}

#[tactic(auto, unfolding(crate::specs::Blocks::delay_updates))]
pub fn delay_updates(
    blocks: [TrueDelayOnInitState; 4],
    t: f64,
    u: [bool; 4],
) -> [TrueDelayOnInitState; 4]
    ensures { result ≡ delay_updates blocks t u }
{
    array::from_fn(|i| blocks[i].update(t, u[i]))
}
