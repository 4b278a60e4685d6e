// `ReliefRow` of relief_fan_group as words. Written by tools/words.
ghost use Rattle.std.specs.Prelude.{◌≡◌};
ghost use Rattle.relief_words.specs.ReliefRow.{relief_row_of};

use relief_fan_group::types::ReliefRow;
use std::array;

#[repr(C)]
#[derive(Clone, Copy)]
pub struct ReliefRowWords {
    pub time: f64,
    pub supply: [u64; 2],
    pub pressure: f64,
    pub alarm: [i64; 4],
    pub proof: [u64; 4],
}

impl From<ReliefRowWords> for ReliefRow {
    ghost from_gives = { λ w s. s ≡ relief_row_of w };

    #[tactic(auto, unfolding(crate::specs::ReliefRow::relief_row_of, block_words::specs::Flags::word_flag))]
    #[inline(always)]
    fn from(words: ReliefRowWords) -> Self {
        // By name first: the borrow checker takes some of these arrays from variables only.
        let supply = array::from_fn(|i| words.supply[i] != 0);
        let alarm = words.alarm;
        let proof = array::from_fn(|i| words.proof[i] != 0);
        ReliefRow {
            time: words.time,
            supply,
            pressure: words.pressure,
            alarm,
            proof,
        }
    }
}
