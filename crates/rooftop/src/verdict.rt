// What a joined row is refused for.
ghost use Rattle.std.specs.Prelude.{◌≡◌};
ghost use Rattle.rooftop.specs.Verdict.{numbers_finite, handed_on_finite, falls, rooftop_verdict};

use crate::types::RooftopRow;
use economizer_controller::types::EconomizerCommands;
use reals::seen::above;
use reals::sign::is_finite;
use refusals::{Refusal, Verdict, judge_by};
use relief_fan_group::verdict::after_judged;

// Every number of the row, its time included, is finite.
#[tactic(auto, unfolding(crate::specs::Verdict::numbers_finite))]
pub fn numbers_finite(row: RooftopRow) -> bool
    ensures { result ≡ numbers_finite row }
{
    is_finite(row.time)
        & is_finite(row.outdoor_airflow_normalized)
        & is_finite(row.minimum_outdoor_airflow_setpoint_normalized)
        & is_finite(row.supply_temperature_signal)
        & is_finite(row.outdoor_air_temperature)
        & is_finite(row.heating_coil)
        & is_finite(row.minimum_outdoor_damper)
        & is_finite(row.supply_air_temperature)
        & is_finite(row.supply_fan_speed)
        & is_finite(row.cooling_coil)
        & is_finite(row.mixed_air_temperature)
        & is_finite(row.pressure)
}

// The three numbers that the economizer hands on are finite.
#[tactic(auto, unfolding(crate::specs::Verdict::handed_on_finite))]
pub fn handed_on_finite(economizer: EconomizerCommands) -> bool
    ensures { result ≡ handed_on_finite economizer }
{
    is_finite(economizer.outdoor_damper_min_limit)
        & is_finite(economizer.outdoor_damper_command)
        & is_finite(economizer.return_damper_command)
}

// Some sequence has accepted a later time.
#[tactic(auto, unfolding(crate::specs::Verdict::falls))]
pub fn falls(economizer: Option<f64>, freeze: Option<f64>, relief: Option<f64>, time: f64) -> bool
    ensures { result ≡ falls economizer freeze relief time }
{
    above(economizer, time) | above(freeze, time) | above(relief, time)
}

// Refusals 1, 2 and 3, 11 and 4; then 1 once more, by the numbers handed on.
#[tactic(auto, unfolding(crate::specs::Verdict::rooftop_verdict, refusals::specs::Refusals::verdict_or_refused))]
pub fn rooftop_verdict(
    falling: bool,
    row: RooftopRow,
    full: bool,
    economizer: EconomizerCommands,
) -> Verdict
    ensures { result ≡ rooftop_verdict falling row full economizer }
{
    let judged = judge_by(numbers_finite(row), row.time, falling);
    after_judged(judged, row.alarm, full)?;
    if !handed_on_finite(economizer) {
        return Err(Refusal::NotFinite);
    }
    Ok(())
}
