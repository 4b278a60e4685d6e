// `Option<f64>` as words. Written by tools/words.
ghost use Rattle.std.specs.Prelude.{◌≡◌};
ghost use Rattle.block_words.specs.Seen.{seen_words, seen_of};

// The number of the variant, and a place for what each holds: C has no enum that carries a value.
#[repr(C)]
#[derive(Clone, Copy)]
pub struct SeenWords {
    pub variant: u64,
    pub at: f64,
}

impl From<Option<f64>> for SeenWords {
    ghost from_gives = { λ s w. w ≡ seen_words s };

    // The number of the variant, and what it holds; 0 for what the others would.
    #[tactic(auto, unfolding(crate::specs::Seen::seen_words))]
    #[inline(always)]
    fn from(value: Option<f64>) -> Self {
        match value {
            None => SeenWords {
                variant: 0,
                at: 0.0,
            },
            Some(at) => SeenWords { variant: 1, at },
        }
    }
}

impl From<SeenWords> for Option<f64> {
    ghost from_gives = { λ w s. s ≡ seen_of w };

    // A number that no variant has is read as `Some`.
    #[tactic(auto, unfolding(crate::specs::Seen::seen_of))]
    #[inline(always)]
    fn from(words: SeenWords) -> Self {
        match words.variant {
            0 => None,
            _ => Some(words.at),
        }
    }
}
