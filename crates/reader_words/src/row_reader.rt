// `RowReader` of row_kinds as words. Written by tools/words.
ghost use Rattle.std.specs.Prelude.{◌≡◌};
ghost use Rattle.reader_words.specs.RowReader.{row_reader_words, row_reader_of};

use crate::phase::PhaseWords;
use econ_words::economizer::EconomizerWords;
use economizer_controller::types::EconomizerState;
use freeze_protection::types::FreezeState;
use freeze_words::freeze::FreezeWords;
use relief_fan_group::types::ReliefHeld;
use relief_words::relief::ReliefWords;
use row_kinds::kind::Phase;
use row_kinds::types::RowReader;

#[repr(C)]
#[derive(Clone, Copy)]
pub struct RowReaderWords {
    pub phase: PhaseWords,
    pub freeze: FreezeWords,
    pub relief: ReliefWords,
    pub econ: EconomizerWords,
}

impl From<RowReader> for RowReaderWords {
    ghost from_gives = { λ s w. w ≡ row_reader_words s };

    #[tactic(auto, unfolding(crate::specs::RowReader::row_reader_words))]
    #[inline(always)]
    fn from(value: RowReader) -> Self {
        RowReaderWords {
            phase: PhaseWords::from(value.phase),
            freeze: FreezeWords::from(value.freeze),
            relief: ReliefWords::from(value.relief),
            econ: EconomizerWords::from(value.econ),
        }
    }
}

impl From<RowReaderWords> for RowReader {
    ghost from_gives = { λ w s. s ≡ row_reader_of w };

    #[tactic(auto, unfolding(crate::specs::RowReader::row_reader_of))]
    #[inline(always)]
    fn from(words: RowReaderWords) -> Self {
        RowReader {
            phase: Phase::from(words.phase),
            freeze: FreezeState::from(words.freeze),
            relief: ReliefHeld::from(words.relief),
            econ: EconomizerState::from(words.econ),
        }
    }
}
