// `hysteresis` of cdl_recurrences.rs, a row at a time: where neither limit is crossed it keeps its output, at a NaN too. The
// economizer's (hysteresis.rt) falls there, and its limits are constants.
ghost use Rattle.std.specs.Prelude.{◌≡◌};
ghost use Rattle.reals.specs.Hysteresis.{kept_hysteresis_new, kept_hysteresis_output, kept_hysteresis_update};

#[derive(Clone, Copy)]
pub struct KeptHysteresisState {
    pub u_low: f64,
    pub u_high: f64,
    pub previous: bool,
}

impl KeptHysteresisState {
    #[tactic(auto, unfolding(crate::specs::Hysteresis::kept_hysteresis_new))]
    pub fn new(u_low: f64, u_high: f64, pre_y_start: bool) -> Self
        ensures { result ≡ kept_hysteresis_new u_low u_high pre_y_start }
    {
        KeptHysteresisState {
            u_low,
            u_high,
            previous: pre_y_start,
        }
    }

    #[tactic(auto, unfolding(crate::specs::Hysteresis::kept_hysteresis_output))]
    pub fn output(self, u: f64) -> bool
        ensures { result ≡ kept_hysteresis_output self u }
    {
        (u > self.u_high) | (!(u < self.u_low) & self.previous)
    }

    #[tactic(auto, unfolding(crate::specs::Hysteresis::kept_hysteresis_update))]
    pub fn update(mut self, u: f64) -> Self
        ensures { result ≡ kept_hysteresis_update self u }
    {
        self.previous = self.output(u);
        self
    }
}
