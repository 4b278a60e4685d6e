// `FreezeCommands` of freeze_protection as words. Written by tools/words.
ghost use Rattle.std.specs.Prelude.{◌≡◌};
ghost use Rattle.freeze_words.specs.FreezeCommands.{freeze_commands_words, freeze_commands_zero};

use freeze_protection::types::FreezeCommands;

#[repr(C)]
#[derive(Clone, Copy)]
pub struct FreezeCommandsWords {
    pub freeze_protection_stage: u64,
    pub chilled_water_pump_enable: u64,
    pub return_damper_command: f64,
    pub outdoor_damper_command: f64,
    pub minimum_outdoor_damper_command: f64,
    pub supply_fan_status: u64,
    pub supply_fan_speed: f64,
    pub cooling_coil_command: f64,
    pub heating_coil_command: f64,
    pub hot_water_plant_request: u64,
    pub alarm_level: u64,
}

impl From<FreezeCommands> for FreezeCommandsWords {
    ghost from_gives = { λ s w. w ≡ freeze_commands_words s };

    #[tactic(auto, unfolding(crate::specs::FreezeCommands::freeze_commands_words, block_words::specs::Flags::flag_word))]
    #[inline(always)]
    fn from(value: FreezeCommands) -> Self {
        FreezeCommandsWords {
            freeze_protection_stage: value.freeze_protection_stage,
            chilled_water_pump_enable: u64::from(value.chilled_water_pump_enable),
            return_damper_command: value.return_damper_command,
            outdoor_damper_command: value.outdoor_damper_command,
            minimum_outdoor_damper_command: value.minimum_outdoor_damper_command,
            supply_fan_status: u64::from(value.supply_fan_status),
            supply_fan_speed: value.supply_fan_speed,
            cooling_coil_command: value.cooling_coil_command,
            heating_coil_command: value.heating_coil_command,
            hot_water_plant_request: value.hot_water_plant_request,
            alarm_level: value.alarm_level,
        }
    }
}

impl Default for FreezeCommandsWords {
    ghost is_default = { λ w. w ≡ freeze_commands_zero };

    #[tactic(auto, unfolding(crate::specs::FreezeCommands::freeze_commands_zero))]
    #[inline(always)]
    fn default() -> Self {
        FreezeCommandsWords {
            freeze_protection_stage: 0,
            chilled_water_pump_enable: 0,
            return_damper_command: 0.0,
            outdoor_damper_command: 0.0,
            minimum_outdoor_damper_command: 0.0,
            supply_fan_status: 0,
            supply_fan_speed: 0.0,
            cooling_coil_command: 0.0,
            heating_coil_command: 0.0,
            hot_water_plant_request: 0,
            alarm_level: 0,
        }
    }
}
