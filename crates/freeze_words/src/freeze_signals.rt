// `FreezeSignals` of freeze_protection as words. Written by tools/words.
ghost use Rattle.std.specs.Prelude.{◌≡◌};
ghost use Rattle.freeze_words.specs.FreezeSignals.{freeze_signals_words, freeze_signals_zero};

use crate::freeze_calls::FreezeCallsWords;
use block_words::timer_output::TimerOutputWords;
use freeze_protection::types::FreezeSignals;

#[repr(C)]
#[derive(Clone, Copy)]
pub struct FreezeSignalsWords {
    pub calls: FreezeCallsWords,
    pub or8_y: u64,
    pub lat1_y: u64,
    pub tim5: TimerOutputWords,
    pub end_sta_two_y: u64,
    pub lat2_y: u64,
    pub or2_y: u64,
    pub lat_y: u64,
    pub stage: u64,
    pub stage_1_heat: f64,
    pub stage_3_measurement: f64,
    pub stage_3_heat: f64,
}

impl From<FreezeSignals> for FreezeSignalsWords {
    ghost from_gives = { λ s w. w ≡ freeze_signals_words s };

    #[tactic(auto, unfolding(crate::specs::FreezeSignals::freeze_signals_words, block_words::specs::Flags::flag_word))]
    #[inline(always)]
    fn from(value: FreezeSignals) -> Self {
        FreezeSignalsWords {
            calls: FreezeCallsWords::from(value.calls),
            or8_y: u64::from(value.or8_y),
            lat1_y: u64::from(value.lat1_y),
            tim5: TimerOutputWords::from(value.tim5),
            end_sta_two_y: u64::from(value.end_sta_two_y),
            lat2_y: u64::from(value.lat2_y),
            or2_y: u64::from(value.or2_y),
            lat_y: u64::from(value.lat_y),
            stage: value.stage,
            stage_1_heat: value.stage_1_heat,
            stage_3_measurement: value.stage_3_measurement,
            stage_3_heat: value.stage_3_heat,
        }
    }
}

impl Default for FreezeSignalsWords {
    ghost is_default = { λ w. w ≡ freeze_signals_zero };

    #[tactic(auto, unfolding(crate::specs::FreezeSignals::freeze_signals_zero))]
    #[inline(always)]
    fn default() -> Self {
        FreezeSignalsWords {
            calls: FreezeCallsWords::default(),
            or8_y: 0,
            lat1_y: 0,
            tim5: TimerOutputWords::default(),
            end_sta_two_y: 0,
            lat2_y: 0,
            or2_y: 0,
            lat_y: 0,
            stage: 0,
            stage_1_heat: 0.0,
            stage_3_measurement: 0.0,
            stage_3_heat: 0.0,
        }
    }
}
