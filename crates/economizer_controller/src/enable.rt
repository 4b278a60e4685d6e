// The second pass, `enable_trace` (Subsequences.Enable with use_enthalpy=false): when the economizer is enabled, and how the dampers move when it is not.
// The cutoff and the damper limits are arguments, since in economizer_enable.rs they arrive in each row.
ghost use Rattle.std.specs.Prelude.{◌≡◌};
ghost use Rattle.economizer_controller.specs.Enable.{enable_new, enable_output, enable_update, enable_limits};

use crate::types::{DamperLimits, EnableLimits, EnableSignals};
use logical::true_delay::TrueDelayState;
use logical::true_false_hold::TrueFalseHoldState;
use reals::hysteresis::HysteresisState;
use reals::switch::switch;

#[derive(Clone, Copy)]
pub struct EnableState {
    pub hysteresis: HysteresisState,
    pub hold: TrueFalseHoldState,
    pub outdoor_delay: TrueDelayState,
    pub return_delay: TrueDelayState,
}

impl EnableState {
    // Seconds that the hold keeps each of its values, and that the dampers wait once the economizer is not enabled.
    pub const HOLD_DURATION: f64 = 600.0;

    pub const OUTDOOR_DELAY: f64 = 15.0;

    pub const RETURN_DELAY: f64 = 180.0;

    pub const NO_FREEZE_STAGE: i64 = 0;

    #[tactic(auto, unfolding(crate::specs::Enable::enable_new))]
    pub fn new() -> Self
        ensures { result ≡ enable_new }
    {
        EnableState {
            hysteresis: HysteresisState::new(),
            hold: TrueFalseHoldState::new(Self::HOLD_DURATION, Self::HOLD_DURATION),
            outdoor_delay: TrueDelayState::new(),
            return_delay: TrueDelayState::new(),
        }
    }

    #[tactic(auto, unfolding(crate::specs::Enable::enable_output, crate::specs::Integers::integers_equal))]
    pub fn output(
        self,
        t: f64,
        outdoor_air_temperature: f64,
        outdoor_air_cutoff: f64,
        supply_fan_status: bool,
        freeze_protection_stage: i64,
    ) -> EnableSignals
        ensures { result ≡ enable_output self t outdoor_air_temperature outdoor_air_cutoff
            supply_fan_status freeze_protection_stage }
    {
        let dry_bulb_delta = outdoor_air_temperature - outdoor_air_cutoff;
        let outdoor_air_condition = self.hysteresis.output(dry_bulb_delta);
        let held_condition = self.hold.output(t, outdoor_air_condition);
        let stage_0 = freeze_protection_stage == Self::NO_FREEZE_STAGE;
        let enabled = held_condition & supply_fan_status & stage_0;
        let disabled = !enabled;
        let outdoor_delay_done = self.outdoor_delay.output(t, disabled, Self::OUTDOOR_DELAY);
        let return_delay_done = self.return_delay.output(t, disabled, Self::RETURN_DELAY);
        EnableSignals {
            dry_bulb_delta,
            outdoor_air_condition,
            held_condition,
            enabled,
            outdoor_delay_done,
            return_delay_done,
        }
    }

    // The blocks after a row at t with these signals.
    #[tactic(auto, unfolding(crate::specs::Enable::enable_update))]
    pub fn update(mut self, t: f64, signals: EnableSignals) -> Self
        ensures { result ≡ enable_update self t signals }
    {
        let disabled = !signals.enabled;
        EnableState {
            hysteresis: self.hysteresis.update(signals.dry_bulb_delta),
            hold: self.hold.update(t, signals.outdoor_air_condition),
            outdoor_delay: self.outdoor_delay.update(t, disabled, Self::OUTDOOR_DELAY),
            return_delay: self.return_delay.update(t, disabled, Self::RETURN_DELAY),
        }
    }
}

// The damper limits while the economizer is enabled, and those that it falls back to: the return damper full open until its delay is done, the outdoor damper
// at its minimum once its own is.
#[tactic(auto, unfolding(crate::specs::Enable::enable_limits))]
pub fn enable_limits(signals: EnableSignals, limits: DamperLimits) -> EnableLimits
    ensures { result ≡ enable_limits signals limits }
{
    let disabled = !signals.enabled;
    let close_outdoor_damper = disabled & signals.outdoor_delay_done;
    let force_return_damper_physical = disabled & !signals.return_delay_done;
    let physical_max = limits.return_damper_physical_max_limit;
    let return_min_base = switch(
        disabled,
        limits.return_damper_max_limit,
        limits.return_damper_min_limit,
    );
    EnableLimits {
        outdoor_damper_max_limit: switch(
            close_outdoor_damper,
            limits.outdoor_damper_min_limit,
            limits.outdoor_damper_max_limit,
        ),
        return_damper_min_limit: switch(
            force_return_damper_physical,
            physical_max,
            return_min_base,
        ),
        return_damper_max_limit: switch(
            force_return_damper_physical,
            physical_max,
            limits.return_damper_max_limit,
        ),
    }
}
