// What a freeze row is refused for.
ghost use Rattle.std.specs.Prelude.{◌≡◌};
ghost use Rattle.freeze_protection.specs.Verdict.{numbers_finite, freeze_verdict};

use crate::types::{FreezeRow, FreezeState};
use reals::sign::is_finite;
use refusals::{Verdict, judge};

// Every number of the row, its time included, is finite. A function of each sequence: the rows have other fields.
#[tactic(auto, unfolding(crate::specs::Verdict::numbers_finite))]
pub fn numbers_finite(row: FreezeRow) -> bool
    ensures { result ≡ numbers_finite row }
{
    is_finite(row.time)
        & is_finite(row.outdoor_damper_min_position)
        & is_finite(row.outdoor_damper)
        & is_finite(row.heating_coil)
        & is_finite(row.minimum_outdoor_damper)
        & is_finite(row.return_damper)
        & is_finite(row.supply_air_temperature)
        & is_finite(row.supply_fan_speed)
        & is_finite(row.cooling_coil)
        & is_finite(row.mixed_air_temperature)
}

// Refusals 1, 2 and 3.
#[tactic(auto, unfolding(crate::specs::Verdict::freeze_verdict))]
pub fn freeze_verdict(state: FreezeState, row: FreezeRow) -> Verdict
    ensures { result ≡ freeze_verdict state row }
{
    judge(numbers_finite(row), row.time, state.last)
}
