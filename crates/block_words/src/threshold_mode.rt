// `ThresholdMode` of reals as words. Written by tools/words.
ghost use Rattle.std.specs.Prelude.{◌≡◌};
ghost use Rattle.block_words.specs.ThresholdMode.{threshold_mode_words, threshold_mode_of};

use reals::threshold::ThresholdMode;

// The number of the variant, and a place for what each holds: C has no enum that carries a value.
#[repr(C)]
#[derive(Clone, Copy)]
pub struct ThresholdModeWords {
    pub variant: u64,
}

impl From<ThresholdMode> for ThresholdModeWords {
    ghost from_gives = { λ s w. w ≡ threshold_mode_words s };

    // The number of the variant, and what it holds; 0 for what the others would.
    #[tactic(auto, unfolding(crate::specs::ThresholdMode::threshold_mode_words))]
    #[inline(always)]
    fn from(value: ThresholdMode) -> Self {
        match value {
            ThresholdMode::Greater => ThresholdModeWords { variant: 0 },
            ThresholdMode::Less => ThresholdModeWords { variant: 1 },
        }
    }
}

impl From<ThresholdModeWords> for ThresholdMode {
    ghost from_gives = { λ w s. s ≡ threshold_mode_of w };

    // A number that no variant has is read as `Less`.
    #[tactic(auto, unfolding(crate::specs::ThresholdMode::threshold_mode_of))]
    #[inline(always)]
    fn from(words: ThresholdModeWords) -> Self {
        match words.variant {
            0 => ThresholdMode::Greater,
            _ => ThresholdMode::Less,
        }
    }
}
