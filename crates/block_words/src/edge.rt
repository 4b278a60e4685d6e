// `EdgeState` of logical as words. Written by tools/words.
ghost use Rattle.std.specs.Prelude.{◌≡◌};
ghost use Rattle.block_words.specs.Edge.{edge_words, edge_of};

use logical::edge::EdgeState;

#[repr(C)]
#[derive(Clone, Copy)]
pub struct EdgeWords {
    pub previous: u64,
}

impl From<EdgeState> for EdgeWords {
    ghost from_gives = { λ s w. w ≡ edge_words s };

    #[tactic(auto, unfolding(crate::specs::Edge::edge_words, crate::specs::Flags::flag_word))]
    #[inline(always)]
    fn from(value: EdgeState) -> Self {
        EdgeWords {
            previous: u64::from(value.previous),
        }
    }
}

impl From<EdgeWords> for EdgeState {
    ghost from_gives = { λ w s. s ≡ edge_of w };

    #[tactic(auto, unfolding(crate::specs::Edge::edge_of, crate::specs::Flags::word_flag))]
    #[inline(always)]
    fn from(words: EdgeWords) -> Self {
        EdgeState {
            previous: words.previous != 0,
        }
    }
}
