// `RooftopCommands` of rooftop as words. Written by tools/words.
ghost use Rattle.std.specs.Prelude.{◌≡◌};
ghost use Rattle.rooftop_words.specs.RooftopCommands.{rooftop_commands_words, rooftop_commands_zero};

use econ_words::economizer_commands::EconomizerCommandsWords;
use freeze_words::freeze_commands::FreezeCommandsWords;
use relief_words::relief_commands::ReliefCommandsWords;
use rooftop::types::RooftopCommands;

#[repr(C)]
#[derive(Clone, Copy)]
pub struct RooftopCommandsWords {
    pub economizer: EconomizerCommandsWords,
    pub freeze: FreezeCommandsWords,
    pub relief: ReliefCommandsWords,
}

impl From<RooftopCommands> for RooftopCommandsWords {
    ghost from_gives = { λ s w. w ≡ rooftop_commands_words s };

    #[tactic(auto, unfolding(crate::specs::RooftopCommands::rooftop_commands_words))]
    #[inline(always)]
    fn from(value: RooftopCommands) -> Self {
        RooftopCommandsWords {
            economizer: EconomizerCommandsWords::from(value.economizer),
            freeze: FreezeCommandsWords::from(value.freeze),
            relief: ReliefCommandsWords::from(value.relief),
        }
    }
}

impl Default for RooftopCommandsWords {
    ghost is_default = { λ w. w ≡ rooftop_commands_zero };

    #[tactic(auto, unfolding(crate::specs::RooftopCommands::rooftop_commands_zero))]
    #[inline(always)]
    fn default() -> Self {
        RooftopCommandsWords {
            economizer: EconomizerCommandsWords::default(),
            freeze: FreezeCommandsWords::default(),
            relief: ReliefCommandsWords::default(),
        }
    }
}
