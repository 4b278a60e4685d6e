// The third pass, `relief_modulation_trace` (Modulations.Reliefs): damper positions from the supply temperature signal, between the limits of the other two.
ghost use Rattle.std.specs.Prelude.{◌≡◌};
ghost use Rattle.economizer_controller.specs.Relief.{relief_modulation};

use crate::types::{DamperLimits, EnableLimits, ReliefModulation};
use reals::line::buildings_line;
use reals::order::{greater, lesser};

const U_MIN: f64 = -0.25;

const U_MAX: f64 = 0.25;

const U_OUT_DAM_MAX: f64 = 0.0;

const U_RET_DAM_MIN: f64 = 0.0;

// The outdoor damper opens over the lower half of the signal and is never above its upper limit; the return damper closes over the upper half and is never
// below its lower limit.
#[tactic(auto, unfolding(crate::specs::Relief::relief_modulation))]
pub fn relief_modulation(
    supply_temperature_signal: f64,
    limits: DamperLimits,
    enable: EnableLimits,
) -> ReliefModulation
    ensures { result ≡ relief_modulation supply_temperature_signal limits enable }
{
    let out_dam_pos = buildings_line(
        U_MIN,
        limits.outdoor_damper_min_limit,
        U_OUT_DAM_MAX,
        enable.outdoor_damper_max_limit,
        supply_temperature_signal,
    );
    let ret_dam_pos = buildings_line(
        U_RET_DAM_MIN,
        enable.return_damper_max_limit,
        U_MAX,
        enable.return_damper_min_limit,
        supply_temperature_signal,
    );
    ReliefModulation {
        outdoor_damper_command: lesser(out_dam_pos, enable.outdoor_damper_max_limit),
        return_damper_command: greater(ret_dam_pos, enable.return_damper_min_limit),
    }
}
