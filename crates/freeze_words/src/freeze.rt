// `FreezeState` of freeze_protection as words. Written by tools/words.
ghost use Rattle.std.specs.Prelude.{◌≡◌};
ghost use Rattle.freeze_words.specs.Freeze.{freeze_words, freeze_of};

use block_words::edge::EdgeWords;
use block_words::held_timer::HeldTimerWords;
use block_words::hour_timer::HourTimerWords;
use block_words::latch::LatchWords;
use block_words::pid::PidWords;
use block_words::seen::SeenWords;
use block_words::threshold::ThresholdWords;
use block_words::true_false_hold::TrueFalseHoldWords;
use freeze_protection::types::FreezeState;
use logical::edge::EdgeState;
use logical::held_timer::HeldTimerState;
use logical::hour_timer::HourTimerState;
use logical::latch::LatchState;
use logical::true_false_hold::TrueFalseHoldState;
use reals::pid::PidState;
use reals::threshold::ThresholdState;

#[repr(C)]
#[derive(Clone, Copy)]
pub struct FreezeWords {
    pub last: SeenWords,
    pub les_thr: ThresholdWords,
    pub tim: HeldTimerWords,
    pub hea_coil_stage_1: PidWords,
    pub gre_thr: ThresholdWords,
    pub lat: LatchWords,
    pub tim1: HeldTimerWords,
    pub end_sta_one: EdgeWords,
    pub les_thr1: ThresholdWords,
    pub tim2: HeldTimerWords,
    pub hol_sta2: TrueFalseHoldWords,
    pub tim3: HeldTimerWords,
    pub les_thr2: ThresholdWords,
    pub tim4: HeldTimerWords,
    pub lat1: LatchWords,
    pub hea_coil_stage_3: PidWords,
    pub tim5: HourTimerWords,
    pub lat2: LatchWords,
    pub end_sta_two: EdgeWords,
}

impl From<FreezeState> for FreezeWords {
    ghost from_gives = { λ s w. w ≡ freeze_words s };

    #[tactic(auto, unfolding(crate::specs::Freeze::freeze_words))]
    #[inline(always)]
    fn from(value: FreezeState) -> Self {
        FreezeWords {
            last: SeenWords::from(value.last),
            les_thr: ThresholdWords::from(value.les_thr),
            tim: HeldTimerWords::from(value.tim),
            hea_coil_stage_1: PidWords::from(value.hea_coil_stage_1),
            gre_thr: ThresholdWords::from(value.gre_thr),
            lat: LatchWords::from(value.lat),
            tim1: HeldTimerWords::from(value.tim1),
            end_sta_one: EdgeWords::from(value.end_sta_one),
            les_thr1: ThresholdWords::from(value.les_thr1),
            tim2: HeldTimerWords::from(value.tim2),
            hol_sta2: TrueFalseHoldWords::from(value.hol_sta2),
            tim3: HeldTimerWords::from(value.tim3),
            les_thr2: ThresholdWords::from(value.les_thr2),
            tim4: HeldTimerWords::from(value.tim4),
            lat1: LatchWords::from(value.lat1),
            hea_coil_stage_3: PidWords::from(value.hea_coil_stage_3),
            tim5: HourTimerWords::from(value.tim5),
            lat2: LatchWords::from(value.lat2),
            end_sta_two: EdgeWords::from(value.end_sta_two),
        }
    }
}

impl From<FreezeWords> for FreezeState {
    ghost from_gives = { λ w s. s ≡ freeze_of w };

    #[tactic(auto, unfolding(crate::specs::Freeze::freeze_of))]
    #[inline(always)]
    fn from(words: FreezeWords) -> Self {
        FreezeState {
            last: Option::from(words.last),
            les_thr: ThresholdState::from(words.les_thr),
            tim: HeldTimerState::from(words.tim),
            hea_coil_stage_1: PidState::from(words.hea_coil_stage_1),
            gre_thr: ThresholdState::from(words.gre_thr),
            lat: LatchState::from(words.lat),
            tim1: HeldTimerState::from(words.tim1),
            end_sta_one: EdgeState::from(words.end_sta_one),
            les_thr1: ThresholdState::from(words.les_thr1),
            tim2: HeldTimerState::from(words.tim2),
            hol_sta2: TrueFalseHoldState::from(words.hol_sta2),
            tim3: HeldTimerState::from(words.tim3),
            les_thr2: ThresholdState::from(words.les_thr2),
            tim4: HeldTimerState::from(words.tim4),
            lat1: LatchState::from(words.lat1),
            hea_coil_stage_3: PidState::from(words.hea_coil_stage_3),
            tim5: HourTimerState::from(words.tim5),
            lat2: LatchState::from(words.lat2),
            end_sta_two: EdgeState::from(words.end_sta_two),
        }
    }
}
