// A column, written.
ghost use Rattle.std.specs.Prelude.{◌≡◌, ◌+◌, ◌-◌, ◌*◌, ◌/◌, ◌%◌, ◌^◌, ◌≤◌, ◌<◌, length, replicate};
ghost use Rattle.columns.specs.Column.{column, text, digits, mark, space, over, Wrote};

// The byte before the first digit.
fn mark(negative: bool) -> u8
    ensures { result ≡ mark negative }
{
    if negative { b'-' } else { b' ' }
}

// Writes the column of a number of one digit, or of its negation.
#[tactic(auto, using(crate::proofs::Writing::column_one))]
fn write_digit(out: &mut [u8; 21], negative: bool, n: u64)
    requires { n < 10 }
    ensures { out.new ≡ column negative n }
{
    *out = [b' '; 21];
    out[19] = mark(negative);
    out[20] = b'0' + n as u8;
}

// Writes a number at the end of W places, after a mark, its digits from the last on. It is kept a call of its own, so that the numbers that rows mostly
// hold are written with no call.
#[tactic(auto, using(crate::proofs::Writing::from_start, crate::proofs::Writing::from_more, crate::proofs::Writing::from_end))]
#[inline(never)]
fn write_text<const W: usize>(out: &mut [u8; W], before: u8, n: u64)
    requires { (2 ≤ W) × (n < 10 ^ (W - 1)) }
    ensures { out.new ≡ text before W n }
{
    out.fill(b' ');
    let mut rest = n;
    // A place is counted, since the last digit written is followed by the mark in the place before it.
    for k in (1..W).rev() {
        out[k] = b'0' + (rest % 10) as u8;
        rest /= 10;
        if rest == 0 {
            out[k - 1] = before;
            break;
        }
    }
}

// The eight digits of a number. They are worked in a word of 64 bits, the first the lowest: it is cut into lanes of four digits, of two and of one, all at
// the same time. A lane of d is turned into one of the quotient of d and one of the remainder above it; 10486 / 2^20 is a little above 1 / 100, and
// 103 / 2^10 a little above 1 / 10, so that they give the quotients, which the masks keep.
#[tactic(auto, using(crate::proofs::Writing::digits_bytes, crate::proofs::Lanes::hundreds_fit, crate::proofs::Lanes::twos_small, crate::proofs::Lanes::tens_fit, crate::proofs::Lanes::digits_packed))]
fn eight_digits(n: u64) -> [u8; 8]
    requires { n < 100000000 }
    ensures { result ≡ digits 8 n }
{
    let fours = n / 10_000 + n % 10_000 * 4294967296;
    let hundreds = (fours * 10486 / 1048576) & 0x0000_007f_0000_007f;
    let twos = fours * 65536 - hundreds * (100 * 65536 - 1);
    let tens = (twos * 103 / 1024) & 0x000f_000f_000f_000f;
    let ones = twos * 256 - tens * (10 * 256 - 1) + 0x3030_3030_3030_3030;
    ones.to_le_bytes()
}

// A number of 1 to 4 digits at the end of 5 places, after a mark. The digits of a float before its last 16 are mostly three.
fn first_text(before: u8, n: u64) -> [u8; 5]
    requires { n < 10000 }
    ensures { result ≡ text before 5 n }
{
    if let 100..1000 = n {
        return [
            b' ',
            before,
            b'0' + (n / 100) as u8,
            b'0' + (n / 10 % 10) as u8,
            b'0' + (n % 10) as u8,
        ];
    }
    let mut text = [b' '; 5];
    write_text(&mut text, before, n);
    text
}

// Writes the column of a number of 17 digits or more, or of its negation: its first digits, and the last 16 by eights.
fn write_long(out: &mut [u8; 21], negative: bool, n: u64)
    requires { 10000000000000000 ≤ n }
    ensures { out.new ≡ column negative n }
{
    let low = n % 10_000_000_000_000_000;
    out[..5].copy_from_slice(&first_text(mark(negative), n / 10_000_000_000_000_000));
    out[5..13].copy_from_slice(&eight_digits(low / 100_000_000));
    out[13..].copy_from_slice(&eight_digits(low % 100_000_000));
}

// Writes a number, or its negation, into the 21 places of a column. Rows hold mostly numbers of one digit, and of 19 or 20.
fn write_number(out: &mut [u8; 21], negative: bool, n: u64)
    ensures { out.new ≡ column negative n }
{
    match n {
        0..10 => write_digit(out, negative, n),
        10..10_000_000_000_000_000 => write_text(out, mark(negative), n),
        _ => write_long(out, negative, n),
    }
}

// Helper. Writes a number, or its negation, into the 21 places from `at` on, and gives the place after them: lines are of several lengths, and all go into the
// one buffer that the caller lends.
pub fn write_column(out: &mut [u8], at: usize, negative: bool, n: u64) -> usize
    requires { at + 21 ≤ length out.old }
    ensures { Wrote out.old at (column negative n) 21 out.new result }
{
    // Two splits and not `first_chunk_mut`, which compares a length at each column: 1 % more instructions a row.
    let (_, rest) = out.split_at_mut(at);
    let (places, _) = rest.split_at_mut(21);
    let Some(places) = places.as_mut_array() else {
        unreachable!()
    };
    write_number(places, negative, n);
    at + 21
}
