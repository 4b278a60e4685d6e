// What a state remembers of the alarms, for service.
ghost use Rattle.std.specs.Prelude.{◌≡◌};
ghost use Rattle.relief_fan_group.specs.Remembered.{relief_alarm};

use crate::types::ReliefBlocks;

// The alarm of a fan, by its index from 0 to 3, at the last accepted row, 0 before any row; None for another index, since there are four fans.
#[tactic(auto, unfolding(crate::specs::Remembered::relief_alarm))]
pub fn relief_alarm(blocks: ReliefBlocks, fan: usize) -> Option<i64>
    ensures { result ≡ relief_alarm blocks fan }
{
    // A copy of the four bytes: what is lent of `blocks` itself keeps all of it in memory, and a call from C then writes out every block.
    let alarms = blocks.alarms;
    alarms.get(fan).map(|&byte| i64::from(byte))
}
