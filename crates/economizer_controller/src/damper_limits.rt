// The first pass, `damper_limits_trace`: damper limits from the loop that keeps the minimum outdoor airflow (Limits.Common).
ghost use Rattle.std.specs.Prelude.{◌≡◌};
ghost use Rattle.economizer_controller.specs.DamperLimits.{minimum_outdoor_air_loop_enabled, damper_limits};

use crate::types::DamperLimits;
use reals::line::buildings_line;
use reals::pid_with_reset::PidWithResetState;
use reals::switch::switch;

const U_RET_DAM_MIN: f64 = 0.5;

const RET_DAM_PHY_MAX: f64 = 1.0;

const RET_DAM_PHY_MIN: f64 = 0.0;

const OUT_DAM_PHY_MAX: f64 = 1.0;

const OUT_DAM_PHY_MIN: f64 = 0.0;

const OCCUPIED: i64 = 1;

// The supply fan is proven on, and the mode is occupied.
#[tactic(auto, unfolding(crate::specs::DamperLimits::minimum_outdoor_air_loop_enabled, crate::specs::Integers::integers_equal))]
pub fn minimum_outdoor_air_loop_enabled(supply_fan_status: bool, operation_mode: i64) -> bool
    ensures { result ≡ minimum_outdoor_air_loop_enabled supply_fan_status operation_mode }
{
    supply_fan_status & (operation_mode == OCCUPIED)
}

// The outdoor damper's minimum rises over the lower half of the loop signal, the return damper's maximum falls over the upper half; where the loop is off, the
// outdoor damper's maximum is shut and the return damper's minimum open.
#[tactic(auto, unfolding(crate::specs::DamperLimits::damper_limits))]
pub fn damper_limits(loop_signal: f64, enabled: bool) -> DamperLimits
    ensures { result ≡ damper_limits loop_signal enabled }
{
    let disabled = !enabled;
    let outdoor_damper_max = switch(disabled, OUT_DAM_PHY_MIN, OUT_DAM_PHY_MAX);
    let return_damper_min = switch(disabled, RET_DAM_PHY_MAX, RET_DAM_PHY_MIN);
    let outdoor_damper_min_limit = buildings_line(
        PidWithResetState::Y_MIN,
        OUT_DAM_PHY_MIN,
        U_RET_DAM_MIN,
        outdoor_damper_max,
        loop_signal,
    );
    let return_damper_max_limit = buildings_line(
        U_RET_DAM_MIN,
        RET_DAM_PHY_MAX,
        PidWithResetState::Y_MAX,
        return_damper_min,
        loop_signal,
    );
    DamperLimits {
        outdoor_damper_min_limit,
        outdoor_damper_max_limit: outdoor_damper_max,
        return_damper_min_limit: return_damper_min,
        return_damper_max_limit,
        return_damper_physical_max_limit: RET_DAM_PHY_MAX,
    }
}
