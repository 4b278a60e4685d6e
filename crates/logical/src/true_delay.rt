// CDL.Logical.TrueDelay with delayOnInit=false: `TrueDelayState` of economizer_controller.rs. On the first row it is true at once if its input is.
ghost use Rattle.std.specs.Prelude.{◌≡◌};
ghost use Rattle.logical.specs.TrueDelay.{true_delay_new, true_delay_next_timer, true_delay_output, true_delay_update};

use reals::seen::gap;
use reals::switch::switch;

#[derive(Clone, Copy)]
pub struct TrueDelayState {
    pub previous_time: Option<f64>,
    pub previous_input: bool,
    pub held_output: bool,
    pub timer: f64,
}

impl TrueDelayState {
    #[tactic(auto, unfolding(crate::specs::TrueDelay::true_delay_new))]
    pub fn new() -> Self
        ensures { result ≡ true_delay_new }
    {
        TrueDelayState {
            previous_time: None,
            previous_input: false,
            held_output: false,
            timer: 0.0,
        }
    }

    // The gaps between rows since the input became true, added in order.
    #[tactic(auto, unfolding(crate::specs::TrueDelay::true_delay_next_timer))]
    fn next_timer(self, t: f64, u: bool) -> f64
        ensures { result ≡ true_delay_next_timer self t u }
    {
        switch(
            u & self.previous_input,
            self.timer + gap(self.previous_time, t),
            0.0,
        )
    }

    // True while the input is: on the first row at once, later from the row at which the gaps reach the delay.
    #[tactic(auto, unfolding(crate::specs::TrueDelay::true_delay_output))]
    pub fn output(self, t: f64, u: bool, delay: f64) -> bool
        ensures { result ≡ true_delay_output self t u delay }
    {
        let first = self.previous_time.is_none();
        let timer = self.next_timer(t, u);
        u & (first | self.held_output | (timer >= delay))
    }

    #[tactic(auto, unfolding(crate::specs::TrueDelay::true_delay_update))]
    pub fn update(mut self, t: f64, u: bool, delay: f64) -> Self
        ensures { result ≡ true_delay_update self t u delay }
    {
        let output = self.output(t, u, delay);
        let timer = self.next_timer(t, u);
        TrueDelayState {
            previous_time: Some(t),
            previous_input: u,
            held_output: output,
            timer: switch(output, delay, timer),
        }
    }
}
