// The outputs of a row, worked from its signals: each latch switches what the one below it gives. Requests and alarm levels are the model's numbers, which go
// out as they are.
ghost use Rattle.std.specs.Prelude.{◌≡◌};
ghost use Rattle.freeze_protection.specs.Commands.{freeze_commands};

use crate::types::{FreezeCommands, FreezeRow, FreezeSignals};
use reals::switch::switch;

#[tactic(auto, unfolding(crate::specs::Commands::freeze_commands))]
pub fn freeze_commands(row: FreezeRow, signals: FreezeSignals) -> FreezeCommands
    ensures { result ≡ freeze_commands row signals }
{
    let one = signals.lat_y;
    let two = signals.lat2_y;
    let three = signals.lat1_y;
    let hot_water_stage_1 = switch(one, 2, 0);
    let minimum_ventilation = switch(one, row.outdoor_damper_min_position, row.outdoor_damper);
    let heating_stage_1 = switch(one, signals.stage_1_heat, row.heating_coil);
    let outdoor_stage_2 = switch(two, 0.0, minimum_ventilation);
    let minimum_outdoor_stage_2 = switch(two, 0.0, row.minimum_outdoor_damper);
    let return_stage_2 = switch(two, 1.0, row.return_damper);
    let alarm_stage_2 = switch(two, 3, 0);
    let supply_fan_speed = switch(three, 0.0, row.supply_fan_speed);
    let outdoor_damper = switch(three, 0.0, outdoor_stage_2);
    let cooling_coil = switch(three, 1.0, row.cooling_coil);
    let hot_water_request = switch(three, 2, hot_water_stage_1);
    let heating_coil = switch(three, signals.stage_3_heat, heating_stage_1);
    let alarm_level = switch(three, 2, alarm_stage_2);
    let minimum_outdoor_damper = switch(three, 0.0, minimum_outdoor_stage_2);
    let return_damper = switch(three, 0.0, return_stage_2);
    FreezeCommands {
        freeze_protection_stage: signals.stage,
        chilled_water_pump_enable: three,
        return_damper_command: return_damper,
        outdoor_damper_command: outdoor_damper,
        minimum_outdoor_damper_command: minimum_outdoor_damper,
        supply_fan_status: row.supply_fan_status & !three,
        supply_fan_speed,
        cooling_coil_command: cooling_coil,
        heating_coil_command: heating_coil,
        hot_water_plant_request: hot_water_request,
        alarm_level,
    }
}
