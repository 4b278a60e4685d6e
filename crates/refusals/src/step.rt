// A row's answer, and the state for the next row.
ghost use Rattle.std.specs.Prelude.{◌≡◌};
ghost use Rattle.refusals.specs.Step.{Stepped};

use crate::{Refusal, Verdict};

#[derive(Clone, Copy)]
pub struct Step<C, S> {
    pub answer: Result<C, Refusal>,
    pub state: S,
}

// Helper: a row with this verdict. What it is worked by, commands and the next state, is asked for only where the row is accepted; where it is refused the old state is
// handed back.
pub fn step_by<C, S: Copy, F: FnOnce() -> (C, S)>(
    verdict: Verdict,
    state: S,
    accepted: F,
) -> Step<C, S>
    requires { F.pre accepted }
    ensures { Stepped (F.post accepted) verdict state result }
{
    // The old state stands until the row is accepted. A copy of its own in each case would make every row copy the unused bytes between the fields.
    let mut next = state;
    let answer = match verdict {
        Ok(()) => {
            let (commands, after) = accepted();
            next = after;
            Ok(commands)
        }
        Err(refusal) => Err(refusal),
    };
    Step {
        answer,
        state: next,
    }
}
