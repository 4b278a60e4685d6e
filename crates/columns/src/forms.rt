// The columns of a line by their forms: read into words and written from them, one loop each. A word is the pattern of a float, 1 or 0 for a yes or no, and the
// two's complement of a signed number.
ghost use Rattle.std.specs.Prelude.{◌≡◌, true, false, ◌+◌, ◌*◌, ◌≤◌, length};
ghost use Rattle.columns.specs.Column.{column, Wrote};
ghost use Rattle.columns.specs.Line.{column_of};
ghost use Rattle.columns.specs.Forms.{form_of, is_signed, read_word, largest, word_column, line_of, read_line};

use crate::column::write_column;
use crate::scan::scan;

// What stands in a column.
#[derive(Clone, Copy, PartialEq, Eq)]
pub enum Form {
    Float,
    YesNo,
    Signed,
    Unsigned,
}

// The form that a byte names, whatever byte it is: a table of columns may come as bytes.
impl From<u8> for Form {
    ghost from_gives = { λ byte form. form ≡ form_of byte };

    fn from(byte: u8) -> Self {
        match byte {
            b'f' => Form::Float,
            b'b' => Form::YesNo,
            b'i' => Form::Signed,
            _ => Form::Unsigned,
        }
    }
}

impl Form {
    // The largest number.
    #[tactic(auto, unfolding(crate::specs::Forms::largest))]
    fn largest(self) -> u64
        ensures { result ≡ largest self }
    {
        match self {
            Form::YesNo => 1,
            Form::Signed => i64::MAX as u64,
            Form::Float | Form::Unsigned => u64::MAX,
        }
    }

    fn is_signed(self) -> bool
        ensures { result ≡ is_signed self }
    {
        self == Form::Signed
    }

    // The word of a number with no minus before it. Rows hold mostly floats, and each number is one.
    #[tactic(auto, using(crate::proofs::Words::no_plain_word, crate::proofs::Words::plain_word), unfolding(crate::specs::Forms::largest))]
    fn plain_word(self, n: u64) -> Option<u64>
        ensures { result ≡ read_word self (column false n) }
    {
        match self {
            Form::Float => Some(n),
            _ => {
                // An `if` and not `then_some`, with which a relief row took 14 instructions more.
                if n > self.largest() {
                    return None;
                }
                Some(n)
            }
        }
    }

    // The word of a number with a minus before it: a signed number, below 0.
    #[tactic(auto, using(crate::proofs::Words::no_minus_word, crate::proofs::Words::minus_word))]
    fn minus_word(self, n: u64) -> Option<u64>
        ensures { result ≡ read_word self (column true n) }
    {
        if !self.is_signed() || n == 0 || n > i64::MIN.unsigned_abs() {
            return None;
        }
        Some(n.wrapping_neg())
    }

    // The word of a column; none where it is badly formed.
    #[tactic(auto, using(crate::proofs::Words::scanned_word, crate::proofs::Words::no_scanned_word))]
    fn read_word(self, column: &[u8]) -> Option<u64>
        ensures { result ≡ read_word self column.now }
    {
        let number = scan(column)?;
        if number.negative {
            return self.minus_word(number.value);
        }
        self.plain_word(number.value)
    }

    // Writes a word as a column. The words of answers are mostly below 10, and no minus stands before those.
    #[tactic(auto, using(crate::proofs::Writing::wrote_as, crate::proofs::Words::column_minus_word, crate::proofs::Words::column_plain_word))]
    fn write_word(self, out: &mut [u8], at: usize, word: u64) -> usize
        requires { at + 21 ≤ length out.old }
        ensures { Wrote out.old at (word_column self word) 21 out.new result }
    {
        if word < 10 {
            return write_column(out, at, false, word);
        }
        if self.is_signed() && word.cast_signed().is_negative() {
            return write_column(out, at, true, word.wrapping_neg());
        }
        write_column(out, at, false, word)
    }
}

// The column k of a line, counted from 0.
#[tactic(auto, unfolding(crate::specs::Line::column_of))]
fn column_of(line: &[u8], k: usize) -> &[u8]
    requires { 21 * k + 21 ≤ length line.now }
    ensures { result.now ≡ column_of line.now k }
{
    &line[21 * k..][..21]
}

// Helper. The words of the columns of a line; none where it is badly formed. One index serves a word, its form and its column: iterators zipped are no plainer.
#[tactic(auto, using(crate::proofs::Loops::read_start, crate::proofs::Loops::read_bad, crate::proofs::Loops::read_end, crate::proofs::Loops::read_none))]
pub fn read_columns<const N: usize>(line: &[u8], forms: &[Form; N]) -> Option<[u64; N]>
    requires { N ≤ 12 }
    ensures { result ≡ read_line forms.now line.now }
{
    if line.len() != 21 * N {
        return None;
    }
    let mut words = [0u64; N];
    for i in 0..N {
        words[i] = forms[i].read_word(column_of(line, i))?;
    }
    Some(words)
}

// Helper. Writes words as columns by their forms, of which there may be more, and gives the place after them.
pub fn write_columns<const N: usize, const M: usize>(
    out: &mut [u8],
    at: usize,
    forms: &[Form; N],
    words: &[u64; M],
) -> usize
    requires { (M ≤ N) × (at + 21 * M ≤ length out.old) }
    ensures { Wrote out.old at (line_of forms.now words.now) (21 * M) out.new result }
{
    let mut to = at;
    for (form, word) in forms.iter().zip(words) {
        to = form.write_word(out, to, *word);
    }
    to
}
