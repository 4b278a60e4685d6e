// `Phase` of row_kinds as words. Written by tools/words.
ghost use Rattle.std.specs.Prelude.{◌≡◌};
ghost use Rattle.reader_words.specs.Phase.{phase_words, phase_of};

use crate::kind::KindWords;
use row_kinds::kind::{Kind, Phase};

// The number of the variant, and a place for what each holds: C has no enum that carries a value.
#[repr(C)]
#[derive(Clone, Copy)]
pub struct PhaseWords {
    pub variant: u64,
    pub rows: KindWords,
}

impl From<Phase> for PhaseWords {
    ghost from_gives = { λ s w. w ≡ phase_words s };

    // The number of the variant, and what it holds; 0 for what the others would.
    #[tactic(auto, unfolding(crate::specs::Phase::phase_words))]
    #[inline(always)]
    fn from(value: Phase) -> Self {
        match value {
            Phase::First => PhaseWords {
                variant: 0,
                rows: KindWords { variant: 0 },
            },
            Phase::Rows(rows) => PhaseWords {
                variant: 1,
                rows: KindWords::from(rows),
            },
            Phase::Stopped => PhaseWords {
                variant: 2,
                rows: KindWords { variant: 0 },
            },
        }
    }
}

impl From<PhaseWords> for Phase {
    ghost from_gives = { λ w s. s ≡ phase_of w };

    // A number that no variant has is read as `Stopped`.
    #[tactic(auto, unfolding(crate::specs::Phase::phase_of))]
    #[inline(always)]
    fn from(words: PhaseWords) -> Self {
        match words.variant {
            0 => Phase::First,
            1 => Phase::Rows(Kind::from(words.rows)),
            _ => Phase::Stopped,
        }
    }
}
