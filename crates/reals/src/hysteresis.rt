// The economizer's hysteresis (`HysteresisState` of economizer_controller.rs): it rises above 0 and stays while at least -1.
ghost use Rattle.std.specs.Prelude.{◌≡◌};
ghost use Rattle.reals.specs.Hysteresis.{hysteresis_new, hysteresis_output, hysteresis_update};

#[derive(Clone, Copy)]
pub struct HysteresisState {
    pub previous: bool,
}

impl HysteresisState {
    pub const U_LOW: f64 = -1.0;

    pub const U_HIGH: f64 = 0.0;

    #[tactic(auto, unfolding(crate::specs::Hysteresis::hysteresis_new))]
    pub fn new() -> Self
        ensures { result ≡ hysteresis_new }
    {
        HysteresisState { previous: false }
    }

    #[tactic(auto, unfolding(crate::specs::Hysteresis::hysteresis_output))]
    pub fn output(self, u: f64) -> bool
        ensures { result ≡ hysteresis_output self u }
    {
        (!self.previous & (u > Self::U_HIGH)) | (self.previous & (u >= Self::U_LOW))
    }

    #[tactic(auto, unfolding(crate::specs::Hysteresis::hysteresis_update))]
    pub fn update(mut self, u: f64) -> Self
        ensures { result ≡ hysteresis_update self u }
    {
        self.previous = self.output(u);
        self
    }
}
