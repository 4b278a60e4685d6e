// The waiting lines of six units, of rows of any type. A unit's rows stand in the first of its four places, the next to be served first.
ghost use Rattle.std.specs.Prelude.{◌≡◌, ◌<◌, ◌≤◌, find, length, drop, take, IfSome};
ghost use Rattle.board.specs.Lines.{unit_numbers, in_turn, lines_of, waits, offer_row, next_unit, serve_row};

use refusals::{Refusal, Verdict};

// How many of a line's places hold a row that waits: as many as are counted, of four at most.
fn occupied<R>(count: usize, line: &[R; 4]) -> usize
    ensures number { result ≡ length (take count line.now) }
    ensures places { result ≤ 4 }
{
    count.min(line.len())
}

// How many rows wait for a unit.
#[tactic(auto, unfolding(crate::specs::Lines::lines_of))]
fn waiting<R>(counts: &[usize; 6], rows: &[[R; 4]; 6], unit: usize) -> usize
    requires { unit < 6 }
    ensures number { result ≡ length (lines_of counts.now rows.now unit) }
    ensures places { result ≤ 4 }
{
    occupied(counts[unit], &rows[unit])
}

// Helper: a row is offered to a unit. It joins the unit's line, or is turned away.
pub fn offer_row<R: Copy>(
    counts: &mut [usize; 6],
    rows: &mut [[R; 4]; 6],
    unit: usize,
    row: R,
) -> Verdict
    ensures { (result, lines_of counts.new rows.new) ≡ offer_row (lines_of counts.old rows.old) unit row }
{
    if unit > 5 {
        return Err(Refusal::NoUnit);
    }
    let place = waiting(counts, rows, unit);
    if place == 4 {
        return Err(Refusal::LineFull);
    }
    rows[unit][place] = row;
    counts[unit] = place + 1;
    Ok(())
}

// The first of the units from `from` to below `to` for which a row waits.
fn first_between<R>(
    counts: &[usize; 6],
    rows: &[[R; 4]; 6],
    from: usize,
    to: usize,
) -> Option<usize>
    requires { to ≤ 6 }
    ensures found { result ≡ find (waits (lines_of counts.now rows.now)) (drop from (take to unit_numbers)) }
    ensures unit { IfSome result (λ u. u < 6) }
{
    for unit in from..to {
        if waiting(counts, rows, unit) > 0 {
            return Some(unit);
        }
    }
    None
}

// The unit to be served: the first in turn, from `first` on and round, for which a row waits.
fn next_unit<R>(counts: &[usize; 6], rows: &[[R; 4]; 6], first: usize) -> Option<usize>
    ensures found { result ≡ next_unit (lines_of counts.now rows.now) first }
    ensures unit { IfSome result (λ u. u < 6) }
{
    match first_between(counts, rows, first, 6) {
        Some(unit) => Some(unit),
        None => first_between(counts, rows, 0, first.min(6)),
    }
}

// Helper: the next row in turn leaves its line, with the number of its unit.
pub fn serve_row<R: Copy>(
    counts: &mut [usize; 6],
    rows: &mut [[R; 4]; 6],
    first: usize,
) -> Option<(usize, R)>
    ensures served { (result, lines_of counts.new rows.new) ≡ serve_row (lines_of counts.old rows.old) first }
    ensures unit { IfSome result (λ s. s.0 < 6) }
{
    match next_unit(counts, rows, first) {
        None => None,
        Some(unit) => {
            let number = waiting(counts, rows, unit);
            let [row, second, third, fourth] = rows[unit];
            rows[unit] = [second, third, fourth, fourth];
            counts[unit] = number - 1;
            Some((unit, row))
        }
    }
}
