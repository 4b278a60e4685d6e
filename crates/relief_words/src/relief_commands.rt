// `ReliefCommands` of relief_fan_group as words. Written by tools/words.
ghost use Rattle.std.specs.Prelude.{◌≡◌};
ghost use Rattle.relief_words.specs.ReliefCommands.{relief_commands_words, relief_commands_zero};

use relief_fan_group::types::ReliefCommands;

#[repr(C)]
#[derive(Clone, Copy)]
pub struct ReliefCommandsWords {
    pub averaged_pressure: f64,
    pub fan_speed_1: f64,
    pub fan_speed_2: f64,
    pub fan_speed_3: f64,
    pub fan_speed_4: f64,
    pub damper_1: f64,
    pub damper_2: f64,
    pub damper_3: f64,
    pub damper_4: f64,
}

impl From<ReliefCommands> for ReliefCommandsWords {
    ghost from_gives = { λ s w. w ≡ relief_commands_words s };

    #[tactic(auto, unfolding(crate::specs::ReliefCommands::relief_commands_words))]
    #[inline(always)]
    fn from(value: ReliefCommands) -> Self {
        ReliefCommandsWords {
            averaged_pressure: value.averaged_pressure,
            fan_speed_1: value.fan_speed_1,
            fan_speed_2: value.fan_speed_2,
            fan_speed_3: value.fan_speed_3,
            fan_speed_4: value.fan_speed_4,
            damper_1: value.damper_1,
            damper_2: value.damper_2,
            damper_3: value.damper_3,
            damper_4: value.damper_4,
        }
    }
}

impl Default for ReliefCommandsWords {
    ghost is_default = { λ w. w ≡ relief_commands_zero };

    #[tactic(auto, unfolding(crate::specs::ReliefCommands::relief_commands_zero))]
    #[inline(always)]
    fn default() -> Self {
        ReliefCommandsWords {
            averaged_pressure: 0.0,
            fan_speed_1: 0.0,
            fan_speed_2: 0.0,
            fan_speed_3: 0.0,
            fan_speed_4: 0.0,
            damper_1: 0.0,
            damper_2: 0.0,
            damper_3: 0.0,
            damper_4: 0.0,
        }
    }
}
