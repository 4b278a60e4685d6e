// CDL.Reals.GreaterThreshold and CDL.Reals.LessThreshold with hysteresis: `ThresholdState` of freeze_protection.rs and `HystereticThreshold` of
// relief_fan_group.rs, which are the same block.
ghost use Rattle.std.specs.Prelude.{◌≡◌};
ghost use Rattle.reals.specs.Threshold.{crosses, threshold_above, threshold_below, threshold_output, threshold_update};

// On which side of the threshold the output is true.
#[derive(Clone, Copy)]
pub enum ThresholdMode {
    Greater,
    Less,
}

impl ThresholdMode {
    // Whether the input crosses the threshold, or, where it did before, stays within the hysteresis.
    #[tactic(auto, unfolding(crate::specs::Threshold::crosses))]
    pub fn crosses(self, threshold: f64, hysteresis: f64, previous: bool, input: f64) -> bool
        ensures { result ≡ crosses self threshold hysteresis previous input }
    {
        match self {
            ThresholdMode::Greater => (!previous & (input > threshold))
                | (previous & (input > threshold - hysteresis)),
            ThresholdMode::Less => (!previous & (input < threshold))
                | (previous & (input < threshold + hysteresis)),
        }
    }
}

#[derive(Clone, Copy)]
pub struct ThresholdState {
    pub threshold: f64,
    pub hysteresis: f64,
    pub previous: bool,
    pub mode: ThresholdMode,
}

impl ThresholdState {
    // `greater` in the Rust.
    #[tactic(auto, unfolding(crate::specs::Threshold::threshold_above))]
    pub fn above(threshold: f64, hysteresis: f64) -> Self
        ensures { result ≡ threshold_above threshold hysteresis }
    {
        ThresholdState {
            threshold,
            hysteresis,
            previous: false,
            mode: ThresholdMode::Greater,
        }
    }

    // `less` in the Rust.
    #[tactic(auto, unfolding(crate::specs::Threshold::threshold_below))]
    pub fn below(threshold: f64, hysteresis: f64) -> Self
        ensures { result ≡ threshold_below threshold hysteresis }
    {
        ThresholdState {
            threshold,
            hysteresis,
            previous: false,
            mode: ThresholdMode::Less,
        }
    }

    #[tactic(auto, unfolding(crate::specs::Threshold::threshold_output))]
    pub fn output(self, input: f64) -> bool
        ensures { result ≡ threshold_output self input }
    {
        self.mode
            .crosses(self.threshold, self.hysteresis, self.previous, input)
    }

    #[tactic(auto, unfolding(crate::specs::Threshold::threshold_update))]
    pub fn update(mut self, input: f64) -> Self
        ensures { result ≡ threshold_update self input }
    {
        ThresholdState {
            threshold: self.threshold,
            hysteresis: self.hysteresis,
            previous: self.output(input),
            mode: self.mode,
        }
    }
}
