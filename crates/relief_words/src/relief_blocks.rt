// `ReliefBlocks` of relief_fan_group as words. Written by tools/words.
ghost use Rattle.std.specs.Prelude.{◌≡◌};
ghost use Rattle.relief_words.specs.ReliefBlocks.{relief_blocks_words, relief_blocks_of};

use block_words::latch::LatchWords;
use block_words::pre::PreWords;
use block_words::present_timer::PresentTimerWords;
use block_words::seen::SeenWords;
use block_words::threshold::{ThresholdWords, threshold_values_of_four, threshold_words_of_four};
use block_words::true_delay_on_init::{
    TrueDelayOnInitWords, true_delay_on_init_values_of_four, true_delay_on_init_words_of_four,
};
use logical::latch::LatchState;
use logical::pre::PreState;
use logical::present_timer::PresentTimerState;
use reals::threshold::ThresholdState;
use relief_fan_group::types::ReliefBlocks;

#[repr(C)]
#[derive(Clone, Copy)]
pub struct ReliefBlocksWords {
    pub last: SeenWords,
    pub alarms: [i8; 4],
    pub alarms_unused: [i8; 4],
    pub gre_thr: ThresholdWords,
    pub les_thr: ThresholdWords,
    pub tim: PresentTimerWords,
    pub lat: LatchWords,
    pub gre_thr1: [ThresholdWords; 4],
    pub gre_thr2: ThresholdWords,
    pub up_tim: PresentTimerWords,
    pub pre: PreWords,
    pub les_thr1: [ThresholdWords; 4],
    pub les_thr2: [ThresholdWords; 4],
    pub tru_del: [TrueDelayOnInitWords; 4],
    pub lat2: LatchWords,
    pub les_thr3: ThresholdWords,
    pub dow_tim: PresentTimerWords,
    pub pre1: PreWords,
    pub les_thr4: [ThresholdWords; 4],
    pub les_thr5: [ThresholdWords; 4],
    pub tru_del1: [TrueDelayOnInitWords; 4],
    pub lat1: LatchWords,
    pub gre_thr3: [ThresholdWords; 4],
}

impl From<ReliefBlocks> for ReliefBlocksWords {
    ghost from_gives = { λ s w. w ≡ relief_blocks_words s };

    #[tactic(auto, unfolding(crate::specs::ReliefBlocks::relief_blocks_words))]
    #[inline(always)]
    fn from(value: ReliefBlocks) -> Self {
        // By name first: the borrow checker takes some of these arrays from variables only.
        let alarms = value.alarms;
        let gre_thr1 = threshold_words_of_four(value.gre_thr1);
        let les_thr1 = threshold_words_of_four(value.les_thr1);
        let les_thr2 = threshold_words_of_four(value.les_thr2);
        let tru_del = true_delay_on_init_words_of_four(value.tru_del);
        let les_thr4 = threshold_words_of_four(value.les_thr4);
        let les_thr5 = threshold_words_of_four(value.les_thr5);
        let tru_del1 = true_delay_on_init_words_of_four(value.tru_del1);
        let gre_thr3 = threshold_words_of_four(value.gre_thr3);
        ReliefBlocksWords {
            last: SeenWords::from(value.last),
            alarms,
            alarms_unused: [0; 4],
            gre_thr: ThresholdWords::from(value.gre_thr),
            les_thr: ThresholdWords::from(value.les_thr),
            tim: PresentTimerWords::from(value.tim),
            lat: LatchWords::from(value.lat),
            gre_thr1,
            gre_thr2: ThresholdWords::from(value.gre_thr2),
            up_tim: PresentTimerWords::from(value.up_tim),
            pre: PreWords::from(value.pre),
            les_thr1,
            les_thr2,
            tru_del,
            lat2: LatchWords::from(value.lat2),
            les_thr3: ThresholdWords::from(value.les_thr3),
            dow_tim: PresentTimerWords::from(value.dow_tim),
            pre1: PreWords::from(value.pre1),
            les_thr4,
            les_thr5,
            tru_del1,
            lat1: LatchWords::from(value.lat1),
            gre_thr3,
        }
    }
}

impl From<ReliefBlocksWords> for ReliefBlocks {
    ghost from_gives = { λ w s. s ≡ relief_blocks_of w };

    #[tactic(auto, unfolding(crate::specs::ReliefBlocks::relief_blocks_of))]
    #[inline(always)]
    fn from(words: ReliefBlocksWords) -> Self {
        // By name first: the borrow checker takes some of these arrays from variables only.
        let alarms = words.alarms;
        let gre_thr1 = threshold_values_of_four(words.gre_thr1);
        let les_thr1 = threshold_values_of_four(words.les_thr1);
        let les_thr2 = threshold_values_of_four(words.les_thr2);
        let tru_del = true_delay_on_init_values_of_four(words.tru_del);
        let les_thr4 = threshold_values_of_four(words.les_thr4);
        let les_thr5 = threshold_values_of_four(words.les_thr5);
        let tru_del1 = true_delay_on_init_values_of_four(words.tru_del1);
        let gre_thr3 = threshold_values_of_four(words.gre_thr3);
        ReliefBlocks {
            last: Option::from(words.last),
            alarms,
            gre_thr: ThresholdState::from(words.gre_thr),
            les_thr: ThresholdState::from(words.les_thr),
            tim: PresentTimerState::from(words.tim),
            lat: LatchState::from(words.lat),
            gre_thr1,
            gre_thr2: ThresholdState::from(words.gre_thr2),
            up_tim: PresentTimerState::from(words.up_tim),
            pre: PreState::from(words.pre),
            les_thr1,
            les_thr2,
            tru_del,
            lat2: LatchState::from(words.lat2),
            les_thr3: ThresholdState::from(words.les_thr3),
            dow_tim: PresentTimerState::from(words.dow_tim),
            pre1: PreState::from(words.pre1),
            les_thr4,
            les_thr5,
            tru_del1,
            lat1: LatchState::from(words.lat1),
            gre_thr3,
        }
    }
}
