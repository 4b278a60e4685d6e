// `EconomizerSignals` of economizer_controller as words. Written by tools/words.
ghost use Rattle.std.specs.Prelude.{◌≡◌};
ghost use Rattle.econ_words.specs.EconomizerSignals.{economizer_signals_words, economizer_signals_zero};

use crate::damper_limits::DamperLimitsWords;
use crate::enable_limits::EnableLimitsWords;
use crate::enable_signals::EnableSignalsWords;
use economizer_controller::types::EconomizerSignals;

#[repr(C)]
#[derive(Clone, Copy)]
pub struct EconomizerSignalsWords {
    pub loop_signal: f64,
    pub minimum_outdoor_air_loop_enabled: u64,
    pub damper_limits: DamperLimitsWords,
    pub enable: EnableSignalsWords,
    pub enable_limits: EnableLimitsWords,
}

impl From<EconomizerSignals> for EconomizerSignalsWords {
    ghost from_gives = { λ s w. w ≡ economizer_signals_words s };

    #[tactic(auto, unfolding(crate::specs::EconomizerSignals::economizer_signals_words, block_words::specs::Flags::flag_word))]
    #[inline(always)]
    fn from(value: EconomizerSignals) -> Self {
        EconomizerSignalsWords {
            loop_signal: value.loop_signal,
            minimum_outdoor_air_loop_enabled: u64::from(value.minimum_outdoor_air_loop_enabled),
            damper_limits: DamperLimitsWords::from(value.damper_limits),
            enable: EnableSignalsWords::from(value.enable),
            enable_limits: EnableLimitsWords::from(value.enable_limits),
        }
    }
}

impl Default for EconomizerSignalsWords {
    ghost is_default = { λ w. w ≡ economizer_signals_zero };

    #[tactic(auto, unfolding(crate::specs::EconomizerSignals::economizer_signals_zero))]
    #[inline(always)]
    fn default() -> Self {
        EconomizerSignalsWords {
            loop_signal: 0.0,
            minimum_outdoor_air_loop_enabled: 0,
            damper_limits: DamperLimitsWords::default(),
            enable: EnableSignalsWords::default(),
            enable_limits: EnableLimitsWords::default(),
        }
    }
}
