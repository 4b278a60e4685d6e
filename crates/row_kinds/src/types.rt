// What the reader carries from chunk to chunk, and what a chunk gives.
ghost use Rattle.std.specs.Prelude.{◌≡◌};
ghost use Rattle.row_kinds.specs.Rows.{fresh_at};

use crate::kind::Phase;
use economizer_controller::step::economizer_fresh;
use economizer_controller::types::EconomizerState;
use freeze_protection::step::freeze_fresh;
use freeze_protection::types::FreezeState;
use relief_fan_group::lent::held_fresh;
use relief_fan_group::types::ReliefHeld;

// What is carried from chunk to chunk, but the arrays of the relief window and the bytes kept of a line.
#[derive(Clone, Copy)]
pub struct RowReader {
    pub phase: Phase,
    pub freeze: FreezeState,
    pub relief: ReliefHeld,
    pub econ: EconomizerState,
}

// What a chunk gives: the number of bytes kept of a line that has not ended, in a buffer that the caller holds, and of those to be written.
#[derive(Clone, Copy)]
pub struct Fed {
    pub len: usize,
    pub sent: usize,
}

// A reader at a phase, with the fresh state of each kind.
#[tactic(auto, unfolding(crate::specs::Rows::fresh_at))]
pub fn fresh_at(phase: Phase) -> RowReader
    ensures { result ≡ fresh_at phase }
{
    RowReader {
        phase,
        freeze: freeze_fresh(),
        relief: held_fresh(),
        econ: economizer_fresh(),
    }
}
