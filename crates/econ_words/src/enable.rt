// `EnableState` of economizer_controller as words. Written by tools/words.
ghost use Rattle.std.specs.Prelude.{◌≡◌};
ghost use Rattle.econ_words.specs.Enable.{enable_words, enable_of};

use block_words::hysteresis::HysteresisWords;
use block_words::true_delay::TrueDelayWords;
use block_words::true_false_hold::TrueFalseHoldWords;
use economizer_controller::enable::EnableState;
use logical::true_delay::TrueDelayState;
use logical::true_false_hold::TrueFalseHoldState;
use reals::hysteresis::HysteresisState;

#[repr(C)]
#[derive(Clone, Copy)]
pub struct EnableWords {
    pub hysteresis: HysteresisWords,
    pub hold: TrueFalseHoldWords,
    pub outdoor_delay: TrueDelayWords,
    pub return_delay: TrueDelayWords,
}

impl From<EnableState> for EnableWords {
    ghost from_gives = { λ s w. w ≡ enable_words s };

    #[tactic(auto, unfolding(crate::specs::Enable::enable_words))]
    #[inline(always)]
    fn from(value: EnableState) -> Self {
        EnableWords {
            hysteresis: HysteresisWords::from(value.hysteresis),
            hold: TrueFalseHoldWords::from(value.hold),
            outdoor_delay: TrueDelayWords::from(value.outdoor_delay),
            return_delay: TrueDelayWords::from(value.return_delay),
        }
    }
}

impl From<EnableWords> for EnableState {
    ghost from_gives = { λ w s. s ≡ enable_of w };

    #[tactic(auto, unfolding(crate::specs::Enable::enable_of))]
    #[inline(always)]
    fn from(words: EnableWords) -> Self {
        EnableState {
            hysteresis: HysteresisState::from(words.hysteresis),
            hold: TrueFalseHoldState::from(words.hold),
            outdoor_delay: TrueDelayState::from(words.outdoor_delay),
            return_delay: TrueDelayState::from(words.return_delay),
        }
    }
}
