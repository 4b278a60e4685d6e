// `EconomizerCommands` of economizer_controller as words. Written by tools/words.
ghost use Rattle.std.specs.Prelude.{◌≡◌};
ghost use Rattle.econ_words.specs.EconomizerCommands.{economizer_commands_words, economizer_commands_zero};

use economizer_controller::types::EconomizerCommands;

#[repr(C)]
#[derive(Clone, Copy)]
pub struct EconomizerCommandsWords {
    pub outdoor_damper_min_limit: f64,
    pub minimum_outdoor_air_loop_enabled: u64,
    pub outdoor_damper_command: f64,
    pub return_damper_command: f64,
}

impl From<EconomizerCommands> for EconomizerCommandsWords {
    ghost from_gives = { λ s w. w ≡ economizer_commands_words s };

    #[tactic(auto, unfolding(crate::specs::EconomizerCommands::economizer_commands_words, block_words::specs::Flags::flag_word))]
    #[inline(always)]
    fn from(value: EconomizerCommands) -> Self {
        EconomizerCommandsWords {
            outdoor_damper_min_limit: value.outdoor_damper_min_limit,
            minimum_outdoor_air_loop_enabled: u64::from(value.minimum_outdoor_air_loop_enabled),
            outdoor_damper_command: value.outdoor_damper_command,
            return_damper_command: value.return_damper_command,
        }
    }
}

impl Default for EconomizerCommandsWords {
    ghost is_default = { λ w. w ≡ economizer_commands_zero };

    #[tactic(auto, unfolding(crate::specs::EconomizerCommands::economizer_commands_zero))]
    #[inline(always)]
    fn default() -> Self {
        EconomizerCommandsWords {
            outdoor_damper_min_limit: 0.0,
            minimum_outdoor_air_loop_enabled: 0,
            outdoor_damper_command: 0.0,
            return_damper_command: 0.0,
        }
    }
}
