// What an economizer row is refused for.
ghost use Rattle.std.specs.Prelude.{◌≡◌};
ghost use Rattle.economizer_controller.specs.Verdict.{numbers_finite, economizer_verdict};

use crate::types::{EconomizerRow, EconomizerState};
use reals::sign::is_finite;
use refusals::{Verdict, judge};

// Every number of the row, its time included, is finite. A function of each sequence: the rows have other fields.
#[tactic(auto, unfolding(crate::specs::Verdict::numbers_finite))]
pub fn numbers_finite(row: EconomizerRow) -> bool
    ensures { result ≡ numbers_finite row }
{
    is_finite(row.time)
        & is_finite(row.outdoor_airflow_normalized)
        & is_finite(row.minimum_outdoor_airflow_setpoint_normalized)
        & is_finite(row.supply_temperature_signal)
        & is_finite(row.outdoor_air_temperature)
}

#[tactic(auto, unfolding(crate::specs::Verdict::economizer_verdict))]
pub fn economizer_verdict(state: EconomizerState, row: EconomizerRow) -> Verdict
    ensures { result ≡ economizer_verdict state row }
{
    judge(numbers_finite(row), row.time, state.last)
}
