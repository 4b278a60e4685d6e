// `FreezeCalls` of freeze_protection as words. Written by tools/words.
ghost use Rattle.std.specs.Prelude.{◌≡◌};
ghost use Rattle.freeze_words.specs.FreezeCalls.{freeze_calls_words, freeze_calls_zero};

use block_words::timer_output::TimerOutputWords;
use freeze_protection::types::FreezeCalls;

#[repr(C)]
#[derive(Clone, Copy)]
pub struct FreezeCallsWords {
    pub les_thr_y: u64,
    pub tim: TimerOutputWords,
    pub gre_thr_y: u64,
    pub tim1: TimerOutputWords,
    pub end_sta_one_y: u64,
    pub les_thr1_y: u64,
    pub tim2: TimerOutputWords,
    pub hol_sta2_y: u64,
    pub tim3: TimerOutputWords,
    pub les_thr2_y: u64,
    pub tim4: TimerOutputWords,
}

impl From<FreezeCalls> for FreezeCallsWords {
    ghost from_gives = { λ s w. w ≡ freeze_calls_words s };

    #[tactic(auto, unfolding(crate::specs::FreezeCalls::freeze_calls_words, block_words::specs::Flags::flag_word))]
    #[inline(always)]
    fn from(value: FreezeCalls) -> Self {
        FreezeCallsWords {
            les_thr_y: u64::from(value.les_thr_y),
            tim: TimerOutputWords::from(value.tim),
            gre_thr_y: u64::from(value.gre_thr_y),
            tim1: TimerOutputWords::from(value.tim1),
            end_sta_one_y: u64::from(value.end_sta_one_y),
            les_thr1_y: u64::from(value.les_thr1_y),
            tim2: TimerOutputWords::from(value.tim2),
            hol_sta2_y: u64::from(value.hol_sta2_y),
            tim3: TimerOutputWords::from(value.tim3),
            les_thr2_y: u64::from(value.les_thr2_y),
            tim4: TimerOutputWords::from(value.tim4),
        }
    }
}

impl Default for FreezeCallsWords {
    ghost is_default = { λ w. w ≡ freeze_calls_zero };

    #[tactic(auto, unfolding(crate::specs::FreezeCalls::freeze_calls_zero))]
    #[inline(always)]
    fn default() -> Self {
        FreezeCallsWords {
            les_thr_y: 0,
            tim: TimerOutputWords::default(),
            gre_thr_y: 0,
            tim1: TimerOutputWords::default(),
            end_sta_one_y: 0,
            les_thr1_y: 0,
            tim2: TimerOutputWords::default(),
            hol_sta2_y: 0,
            tim3: TimerOutputWords::default(),
            les_thr2_y: 0,
            tim4: TimerOutputWords::default(),
        }
    }
}
