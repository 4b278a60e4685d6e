// `EnableSignals` of economizer_controller as words. Written by tools/words.
ghost use Rattle.std.specs.Prelude.{◌≡◌};
ghost use Rattle.econ_words.specs.EnableSignals.{enable_signals_words, enable_signals_zero};

use economizer_controller::types::EnableSignals;

#[repr(C)]
#[derive(Clone, Copy)]
pub struct EnableSignalsWords {
    pub dry_bulb_delta: f64,
    pub outdoor_air_condition: u64,
    pub held_condition: u64,
    pub enabled: u64,
    pub outdoor_delay_done: u64,
    pub return_delay_done: u64,
}

impl From<EnableSignals> for EnableSignalsWords {
    ghost from_gives = { λ s w. w ≡ enable_signals_words s };

    #[tactic(auto, unfolding(crate::specs::EnableSignals::enable_signals_words, block_words::specs::Flags::flag_word))]
    #[inline(always)]
    fn from(value: EnableSignals) -> Self {
        EnableSignalsWords {
            dry_bulb_delta: value.dry_bulb_delta,
            outdoor_air_condition: u64::from(value.outdoor_air_condition),
            held_condition: u64::from(value.held_condition),
            enabled: u64::from(value.enabled),
            outdoor_delay_done: u64::from(value.outdoor_delay_done),
            return_delay_done: u64::from(value.return_delay_done),
        }
    }
}

impl Default for EnableSignalsWords {
    ghost is_default = { λ w. w ≡ enable_signals_zero };

    #[tactic(auto, unfolding(crate::specs::EnableSignals::enable_signals_zero))]
    #[inline(always)]
    fn default() -> Self {
        EnableSignalsWords {
            dry_bulb_delta: 0.0,
            outdoor_air_condition: 0,
            held_condition: 0,
            enabled: 0,
            outdoor_delay_done: 0,
            return_delay_done: 0,
        }
    }
}
