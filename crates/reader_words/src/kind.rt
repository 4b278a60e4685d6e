// `Kind` of row_kinds as words. Written by tools/words.
ghost use Rattle.std.specs.Prelude.{◌≡◌};
ghost use Rattle.reader_words.specs.Kind.{kind_words, kind_of};

use row_kinds::kind::Kind;

// The number of the variant, and a place for what each holds: C has no enum that carries a value.
#[repr(C)]
#[derive(Clone, Copy)]
pub struct KindWords {
    pub variant: u64,
}

impl From<Kind> for KindWords {
    ghost from_gives = { λ s w. w ≡ kind_words s };

    // The number of the variant, and what it holds; 0 for what the others would.
    #[tactic(auto, unfolding(crate::specs::Kind::kind_words))]
    #[inline(always)]
    fn from(value: Kind) -> Self {
        match value {
            Kind::Freeze => KindWords { variant: 0 },
            Kind::Relief => KindWords { variant: 1 },
            Kind::Econ => KindWords { variant: 2 },
        }
    }
}

impl From<KindWords> for Kind {
    ghost from_gives = { λ w s. s ≡ kind_of w };

    // A number that no variant has is read as `Econ`.
    #[tactic(auto, unfolding(crate::specs::Kind::kind_of))]
    #[inline(always)]
    fn from(words: KindWords) -> Self {
        match words.variant {
            0 => Kind::Freeze,
            1 => Kind::Relief,
            _ => Kind::Econ,
        }
    }
}
