// A start, and the joined row: the public operation of the joined sequence.
ghost use Rattle.std.specs.Prelude.{◌≡◌};
ghost use Rattle.rooftop.specs.Step.{rooftop_start, rooftop_fresh, rooftop_row};

use crate::lent::rooftop_row_lent;
use crate::types::{RooftopAnswer, RooftopHeld, RooftopRow, RooftopState, RooftopStep};
use economizer_controller::step::economizer_fresh;
use freeze_protection::step::freeze_start;
use moving_average::lent::Integrator;
use refusals::step::Step;
use relief_fan_group::step::relief_fresh;
use relief_fan_group::types::ReliefHeld;

// The state of a start, before any row, with freeze protection in either manner.
#[tactic(auto, unfolding(crate::specs::Step::rooftop_start))]
pub fn rooftop_start(keeps_hour: bool) -> RooftopState
    ensures { result ≡ rooftop_start keeps_hour }
{
    RooftopState {
        stage: 0,
        economizer: economizer_fresh(),
        freeze: freeze_start(keeps_hour),
        relief: relief_fresh(),
    }
}

// The start with freeze protection as the published Rust starts it.
#[tactic(auto, unfolding(crate::specs::Step::rooftop_fresh))]
pub fn rooftop_fresh() -> RooftopState
    ensures { result ≡ rooftop_fresh }
{
    rooftop_start(false)
}

// Helper: `rooftop_row` on a state that is changed where it stands, so that a row copies no array of the window.
pub fn rooftop_row_mut(state: &mut RooftopState, row: RooftopRow) -> RooftopAnswer
    ensures { record { answer = result; state = state.new } ≡ rooftop_row state.old row }
{
    let window = &mut state.relief.window;
    let held = RooftopHeld {
        stage: state.stage,
        economizer: state.economizer,
        freeze: state.freeze,
        relief: ReliefHeld {
            integrator: Integrator {
                t_start: window.t_start,
                prev_t: window.prev_t,
                mu: window.mu,
                count: window.count,
            },
            blocks: state.relief.blocks,
        },
    };
    let step = rooftop_row_lent(held, &mut window.times, &mut window.integrals, row);
    let next = step.state;
    window.t_start = next.relief.integrator.t_start;
    window.prev_t = next.relief.integrator.prev_t;
    window.mu = next.relief.integrator.mu;
    window.count = next.relief.integrator.count;
    state.relief.blocks = next.relief.blocks;
    state.stage = next.stage;
    state.economizer = next.economizer;
    state.freeze = next.freeze;
    step.answer
}

// One row: the commands of all three and the next state, or the refusal and the old state.
pub fn rooftop_row(state: RooftopState, row: RooftopRow) -> RooftopStep
    ensures { result ≡ rooftop_row state row }
{
    let mut next = state;
    let answer = rooftop_row_mut(&mut next, row);
    Step {
        answer,
        state: next,
    }
}
