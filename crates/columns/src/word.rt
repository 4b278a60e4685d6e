// The value of a word, and the word of a value.
ghost use Rattle.std.specs.Prelude.{◌≡◌};
ghost use Rattle.std.specs.Float.Ieee.{of_bits, to_bits};
ghost use Rattle.std.specs.Float.{binary64};
ghost use Rattle.columns.specs.Word.{yes_no_word, word_signed, signed_word};

// The float of a pattern; a NaN for any pattern of a NaN. There is one NaN here, and it has no bits, so patterns of NaNs are told apart from the others first.
#[tactic(auto, using(crate::proofs::Words::nan_read, crate::proofs::Words::not_nan))]
pub fn of_pattern(n: u64) -> f64
    ensures { result ≡ of_bits binary64 n }
{
    if n % 0x8000_0000_0000_0000 > 0x7ff0_0000_0000_0000 {
        return f64::NAN;
    }
    f64::from_bits(n)
}

// The pattern of a float; that of the quiet NaN with no sign for a NaN, which has no bits to convert.
#[tactic(auto, using(crate::proofs::Words::nan_pattern))]
pub fn pattern(x: f64) -> u64
    ensures { result ≡ to_bits binary64 x }
{
    if x.is_nan() {
        return 0x7ff8_0000_0000_0000;
    }
    x.to_bits()
}

// A yes or no as a word; the name says what the number is.
pub fn yes_no_word(b: bool) -> u64
    ensures { result ≡ yes_no_word b }
{
    u64::from(b)
}

// The signed number of a word, which is its two's complement: `signed_word` back.
#[tactic(auto, using(crate::proofs::Words::word_signed_is))]
pub fn word_signed(word: u64) -> i64
    ensures { result ≡ word_signed word }
{
    word.cast_signed()
}

// The word of a signed number, its two's complement: `word_signed` back.
#[tactic(auto, using(crate::proofs::Words::signed_word_is))]
pub fn signed_word(z: i64) -> u64
    ensures { result ≡ signed_word z }
{
    z.cast_unsigned()
}
