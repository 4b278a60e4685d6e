// A column, read: the number that stands in it.
ghost use Rattle.std.specs.Prelude.{◌≡◌, true, ◌+◌, ◌*◌, ◌≤◌, ◌<◌, length};
ghost use Rattle.columns.specs.Scan.{scan};
ghost use Rattle.columns.specs.ScanSteps.{every, is_space, is_digit, number_at, digit_value, value_with, value_after, after_spaces, minus_first, after_minus};

// The number that stands in a column: whether a minus is before it, and its digits' value.
#[derive(Clone, Copy)]
pub struct Number {
    pub negative: bool,
    pub value: u64,
}

// The value of a digit.
#[tactic(auto, unfolding(crate::specs::ScanSteps::digit_value))]
fn digit(byte: u8) -> Option<u64>
    ensures { result ≡ digit_value byte }
{
    match byte {
        b'0'..=b'9' => Some(u64::from(byte - b'0')),
        _ => None,
    }
}

// The number of the digits of `value` and one after them.
#[tactic(auto, unfolding(crate::specs::ScanSteps::digit_value, crate::specs::ScanSteps::value_with))]
fn value_with(value: u64, byte: u8) -> Option<u64>
    ensures { result ≡ value_with value byte }
{
    value.checked_mul(10)?.checked_add(digit(byte)?)
}

// The number of digits.
#[tactic(auto, using(crate::proofs::Bytes::value_step, crate::proofs::Bytes::value_stop, crate::proofs::Bytes::value_end))]
fn value_of(digits: &[u8]) -> Option<u64>
    ensures { result ≡ value_after 0 digits.now }
{
    let mut value = 0;
    for byte in digits {
        value = value_with(value, *byte)?;
    }
    Some(value)
}

// What is left after spaces.
#[tactic(auto, using(crate::proofs::Bytes::stripped, crate::proofs::Bytes::not_stripped, crate::proofs::Bytes::spaces_more, crate::proofs::Bytes::spaces_end))]
fn after_spaces(column: &[u8]) -> &[u8]
    ensures { result.now ≡ after_spaces column.now }
{
    let mut text = column;
    while let Some(rest) = text.strip_prefix(b" ") {
        text = rest;
    }
    text
}

// Whether a minus is the first byte, and what is left after it.
#[tactic(auto, using(crate::proofs::Bytes::stripped, crate::proofs::Bytes::not_stripped, crate::proofs::Bytes::minus_there, crate::proofs::Bytes::minus_left, crate::proofs::Bytes::minus_none, crate::proofs::Bytes::minus_all))]
fn after_minus(text: &[u8]) -> (bool, &[u8])
    ensures { (result.0 ≡ minus_first text.now) × (result.1.now ≡ after_minus text.now) }
{
    match text.strip_prefix(b"-") {
        Some(rest) => (true, rest),
        None => (false, text),
    }
}

// The number of any column, byte by byte: spaces, at most one minus, and digits with no leading zero up to its end, of a number below 2^64. It is kept a
// call of its own, so that the columns that rows mostly hold are read with fewer registers put aside.
#[tactic(auto, using(crate::proofs::Bytes::no_digits, crate::proofs::Bytes::no_value))]
#[inline(never)]
fn scan_bytes(column: &[u8; 21]) -> Option<Number>
    ensures { result ≡ scan column.now }
{
    let (negative, digits) = after_minus(after_spaces(column));
    let (first, rest) = digits.split_first()?;
    if *first == b'0' {
        return rest.is_empty().then_some(Number { negative, value: 0 });
    }
    let value = value_of(digits)?;
    Some(Number { negative, value })
}

// Whether there are spaces in the first 20 places. It looks at each, so that many are looked at together, where `all` would stop at the first. As a `fold` it
// was not proved.
#[tactic(auto, using(crate::proofs::Digits::every_none, crate::proofs::Digits::space_next))]
fn is_blank(column: &[u8; 21]) -> bool
    ensures { result ≡ every is_space column.now 0 20 }
{
    let mut blank = true;
    for byte in &column[..20] {
        blank &= *byte == b' ';
    }
    blank
}

// Whether there are digits in the last 19 places. It looks at each, as `is_blank` does.
#[tactic(auto, using(crate::proofs::Digits::every_none, crate::proofs::Digits::digit_next))]
fn is_long(column: &[u8; 21]) -> bool
    ensures { result ≡ every is_digit column.now 2 19 }
{
    let mut long = true;
    for byte in &column[2..] {
        long &= byte.is_ascii_digit();
    }
    long
}

// The number of two digits. The byte of a digit is 48 above it.
#[tactic(auto, using(crate::proofs::Digits::number_two))]
fn two(column: &[u8; 21], at: usize) -> u64
    requires { (at + 2 ≤ 21) × (every is_digit column.now at 2 ≡ true) }
    ensures { result ≡ number_at column.now at 2 }
{
    u64::from(column[at]) * 10 + u64::from(column[at + 1]) - 528
}

// The number of eight digits, from their bytes as a word: those of two, of four and of all in lanes, all at the same time.
#[tactic(auto, using(crate::proofs::Digits::eight_small, crate::proofs::Digits::eight_is))]
fn eight(column: &[u8; 21], at: usize) -> u64
    requires { (at + 8 ≤ 21) × (every is_digit column.now at 8 ≡ true) }
    ensures { result ≡ number_at column.now at 8 }
{
    let Some(bytes) = column[at..].first_chunk() else {
        unreachable!()
    };
    let ones = u64::from_le_bytes(*bytes) - 0x3030_3030_3030_3030;
    let twos = (ones * 10 + ones / 256) & 0x00ff_00ff_00ff_00ff;
    let fours = (twos * 100 + twos / 65536) & 0x0000_ffff_0000_ffff;
    (fours * 10000 + fours / 4294967296) % 4294967296
}

// The number of the last 19 digits.
#[tactic(auto, using(crate::proofs::Digits::nineteen))]
fn nineteen(column: &[u8; 21]) -> u64
    requires { every is_digit column.now 2 19 ≡ true }
    ensures { result ≡ number_at column.now 2 19 }
{
    let first = u64::from(column[2]) - 48;
    let high = first * 100 + two(column, 3);
    let low = eight(column, 5) * 100000000 + eight(column, 13);
    high * 10000000000000000 + low
}

// The number of a column. A digit after 20 spaces, and 19 or 20 digits, which are what rows mostly hold, are not read byte by byte. Of 20 digits the first
// is a 1, and the others are at most those of 2^64 - 1.
#[tactic(auto, using(crate::proofs::Inverse::scan_length, crate::proofs::Digits::digit_seen, crate::proofs::Digits::long_seen, crate::proofs::Digits::longer_seen, crate::proofs::Digits::too_long))]
pub fn scan(column: &[u8]) -> Option<Number>
    ensures { result ≡ scan column.now }
{
    let column: &[u8; 21] = column.as_array()?;
    if column[19] == b' ' && is_blank(column) && column[20].is_ascii_digit() {
        let value = u64::from(column[20] - b'0');
        return Some(Number {
            negative: false,
            value,
        });
    }
    if column[0] == b' ' && is_long(column) {
        let low = nineteen(column);
        if column[1] == b' ' && column[2] != b'0' {
            return Some(Number {
                negative: false,
                value: low,
            });
        }
        if column[1] == b'1' {
            let value = low.checked_add(10000000000000000000)?;
            return Some(Number {
                negative: false,
                value,
            });
        }
    }
    scan_bytes(column)
}
