// CDL.Logical.TrueFalseHold: `TrueFalseHoldState` of freeze_protection.rs, and, with 600 s both ways, of economizer_controller.rs.
ghost use Rattle.std.specs.Prelude.{◌≡◌};
ghost use Rattle.logical.specs.TrueFalseHold.{true_false_hold_new, true_false_hold_output_and_timer, true_false_hold_output, true_false_hold_update};

use reals::order::greater;
use reals::seen::gap;
use reals::switch::switch;

#[derive(Clone, Copy)]
pub struct TrueFalseHoldState {
    pub held: bool,
    pub timer: f64,
    pub prev_t: Option<f64>,
    pub true_hold_duration: f64,
    pub false_hold_duration: f64,
}

#[derive(Clone, Copy)]
pub struct TrueFalseHoldOutput {
    pub y: bool,
    pub timer: f64,
}

impl TrueFalseHoldState {
    #[tactic(auto, unfolding(crate::specs::TrueFalseHold::true_false_hold_new))]
    pub fn new(true_hold_duration: f64, false_hold_duration: f64) -> Self
        ensures { result ≡ true_false_hold_new true_hold_duration false_hold_duration }
    {
        TrueFalseHoldState {
            held: false,
            timer: 0.0,
            prev_t: None,
            true_hold_duration,
            false_hold_duration,
        }
    }

    // The output, and the time since it last changed: the gaps between rows, added in order.
    #[tactic(auto, unfolding(crate::specs::TrueFalseHold::true_false_hold_output_and_timer, crate::specs::TrueFalseHold::true_false_hold_required))]
    pub fn output_and_timer(self, t: f64, u: bool) -> TrueFalseHoldOutput
        ensures { result ≡ true_false_hold_output_and_timer self t u }
    {
        let first = self.prev_t.is_none();
        let timer = self.timer + gap(self.prev_t, t);
        let duration = switch(self.held, self.true_hold_duration, self.false_hold_duration);
        let required = greater(duration, 0.0);
        let changes = first | ((u != self.held) & (timer >= required));
        TrueFalseHoldOutput {
            y: switch(changes, u, self.held),
            timer: switch(changes, 0.0, timer),
        }
    }

    #[tactic(auto, unfolding(crate::specs::TrueFalseHold::true_false_hold_output))]
    pub fn output(self, t: f64, u: bool) -> bool
        ensures { result ≡ true_false_hold_output self t u }
    {
        self.output_and_timer(t, u).y
    }

    #[tactic(auto, unfolding(crate::specs::TrueFalseHold::true_false_hold_update))]
    pub fn update(mut self, t: f64, u: bool) -> Self
        ensures { result ≡ true_false_hold_update self t u }
    {
        let next = self.output_and_timer(t, u);
        TrueFalseHoldState {
            held: next.y,
            timer: next.timer,
            prev_t: Some(t),
            true_hold_duration: self.true_hold_duration,
            false_hold_duration: self.false_hold_duration,
        }
    }
}
