// `ReliefSignals` of relief_fan_group as words. Written by tools/words.
ghost use Rattle.std.specs.Prelude.{◌≡◌};
ghost use Rattle.relief_words.specs.ReliefSignals.{relief_signals_words, relief_signals_zero};

use crate::damper_enable::DamperEnableWords;
use crate::pressure_control::PressureControlWords;
use crate::stage_down::StageDownWords;
use crate::stage_up::StageUpWords;
use relief_fan_group::types::ReliefSignals;

#[repr(C)]
#[derive(Clone, Copy)]
pub struct ReliefSignalsWords {
    pub control: PressureControlWords,
    pub dampers: DamperEnableWords,
    pub up: StageUpWords,
    pub down: StageDownWords,
}

impl From<ReliefSignals> for ReliefSignalsWords {
    ghost from_gives = { λ s w. w ≡ relief_signals_words s };

    #[tactic(auto, unfolding(crate::specs::ReliefSignals::relief_signals_words))]
    #[inline(always)]
    fn from(value: ReliefSignals) -> Self {
        ReliefSignalsWords {
            control: PressureControlWords::from(value.control),
            dampers: DamperEnableWords::from(value.dampers),
            up: StageUpWords::from(value.up),
            down: StageDownWords::from(value.down),
        }
    }
}

impl Default for ReliefSignalsWords {
    ghost is_default = { λ w. w ≡ relief_signals_zero };

    #[tactic(auto, unfolding(crate::specs::ReliefSignals::relief_signals_zero))]
    #[inline(always)]
    fn default() -> Self {
        ReliefSignalsWords {
            control: PressureControlWords::default(),
            dampers: DamperEnableWords::default(),
            up: StageUpWords::default(),
            down: StageDownWords::default(),
        }
    }
}
