// Each sequence's row, made of the joined one and of what another sequence hands on.
ghost use Rattle.std.specs.Prelude.{◌≡◌};
ghost use Rattle.rooftop.specs.Wiring.{economizer_row_of, freeze_row_of, relief_row_of};

use crate::types::RooftopRow;
use economizer_controller::types::{EconomizerCommands, EconomizerRow};
use freeze_protection::types::FreezeRow;
use relief_fan_group::types::ReliefRow;

// The economizer is handed the freeze stage of the last accepted row.
#[tactic(auto, unfolding(crate::specs::Wiring::economizer_row_of))]
pub fn economizer_row_of(row: RooftopRow, stage: i64) -> EconomizerRow
    ensures { result ≡ economizer_row_of row stage }
{
    EconomizerRow {
        time: row.time,
        outdoor_airflow_normalized: row.outdoor_airflow_normalized,
        minimum_outdoor_airflow_setpoint_normalized: row.minimum_outdoor_airflow_setpoint_normalized,
        supply_temperature_signal: row.supply_temperature_signal,
        outdoor_air_temperature: row.outdoor_air_temperature,
        supply_fan_status: row.supply_fan_status,
        operation_mode: row.operation_mode,
        freeze_protection_stage: stage,
    }
}

// Freeze protection is handed the economizer's outdoor minimum and its outdoor and return commands.
#[tactic(auto, unfolding(crate::specs::Wiring::freeze_row_of))]
pub fn freeze_row_of(row: RooftopRow, economizer: EconomizerCommands) -> FreezeRow
    ensures { result ≡ freeze_row_of row economizer }
{
    FreezeRow {
        time: row.time,
        outdoor_damper_min_position: economizer.outdoor_damper_min_limit,
        outdoor_damper: economizer.outdoor_damper_command,
        heating_coil: row.heating_coil,
        minimum_outdoor_damper: row.minimum_outdoor_damper,
        return_damper: economizer.return_damper_command,
        supply_air_temperature: row.supply_air_temperature,
        software_reset: row.software_reset,
        supply_fan_status: row.supply_fan_status,
        supply_fan_speed: row.supply_fan_speed,
        cooling_coil: row.cooling_coil,
        mixed_air_temperature: row.mixed_air_temperature,
    }
}

// The relief fan group is handed freeze protection's fan status as both supply flags.
#[tactic(auto, unfolding(crate::specs::Wiring::relief_row_of))]
pub fn relief_row_of(row: RooftopRow, fan: bool) -> ReliefRow
    ensures { result ≡ relief_row_of row fan }
{
    // By name first: the borrow checker takes arrays from variables only.
    let supply = [fan; 2];
    let alarm = row.alarm;
    let proof = row.proof;
    ReliefRow {
        time: row.time,
        supply,
        pressure: row.pressure,
        alarm,
        proof,
    }
}
