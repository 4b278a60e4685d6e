// What a display shows beside the signals of a row: how long until each timer passes.
ghost use Rattle.std.specs.Prelude.{◌≡◌};
ghost use Rattle.relief_fan_group.specs.Left.{relief_left};

use crate::types::{ReliefBlocks, ReliefLeft, ReliefSignals};

// The seconds left on each timer at a row with these signals, by the blocks that the row was handed to.
#[tactic(auto, unfolding(crate::specs::Left::relief_left))]
pub fn relief_left(blocks: ReliefBlocks, signals: ReliefSignals) -> ReliefLeft
    ensures { result ≡ relief_left blocks signals }
{
    ReliefLeft {
        tim: signals.dampers.tim.left(blocks.tim.threshold),
        up_tim: signals.up.up_tim.left(blocks.up_tim.threshold),
        dow_tim: signals.down.dow_tim.left(blocks.dow_tim.threshold),
    }
}
