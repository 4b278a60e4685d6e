// What a display shows beside the signals of a row: how long until each timer passes.
ghost use Rattle.std.specs.Prelude.{◌≡◌};
ghost use Rattle.freeze_protection.specs.Left.{freeze_left};

use crate::types::{FreezeLeft, FreezeSignals, FreezeState};

// The seconds left on each timer at a row with these signals, by the state that the row was handed to.
#[tactic(auto, unfolding(crate::specs::Left::freeze_left))]
pub fn freeze_left(state: FreezeState, signals: FreezeSignals) -> FreezeLeft
    ensures { result ≡ freeze_left state signals }
{
    FreezeLeft {
        tim: signals.calls.tim.left(state.tim.threshold),
        tim1: signals.calls.tim1.left(state.tim1.threshold),
        tim2: signals.calls.tim2.left(state.tim2.threshold),
        tim3: signals.calls.tim3.left(state.tim3.threshold),
        tim4: signals.calls.tim4.left(state.tim4.threshold),
        tim5: signals.tim5.left(state.tim5.threshold),
    }
}
