// What a row, or its line, is refused for, one enum for all; the refusals that all sequences share, and what a row gives.
#![tactic(auto)]

ghost use Rattle.std.specs.Prelude.{◌≡◌};
ghost use Rattle.refusals.specs.Refusals.{refusal_number, judge_by, judge};

use reals::seen::above;
use reals::sign::is_sign_negative;

pub mod step; // a row's answer and the state for the next row

#[derive(Clone, Copy, Debug, PartialEq, Eq)]
pub enum Refusal {
    NotFinite,
    NegativeTime,
    FallingTime,
    AlarmOutOfRange,
    WindowFull,
    BadlyFormed,
    NoKind,
    NoRoom,
    NoUnit,
    LineFull,
}

// A row is accepted, or refused.
pub type Verdict = Result<(), Refusal>;

impl Refusal {
    // The papers' number of the refusal: the status of a row line. A method and no `From`, since its name says what the number is.
    #[tactic(auto, unfolding(crate::specs::Refusals::refusal_number))]
    pub fn number(self) -> u64
        ensures { result ≡ refusal_number self }
    {
        match self {
            Refusal::NotFinite => 1,
            Refusal::NegativeTime => 2,
            Refusal::FallingTime => 3,
            Refusal::AlarmOutOfRange => 11,
            Refusal::WindowFull => 4,
            Refusal::BadlyFormed => 5,
            Refusal::NoKind => 6,
            Refusal::NoRoom => 10,
            Refusal::NoUnit => 12,
            Refusal::LineFull => 13,
        }
    }
}

// The first refusal that fits a row at a time: `finite` says that all its numbers are finite, `falling` that the time is below a last accepted one.
pub fn judge_by(finite: bool, time: f64, falling: bool) -> Verdict
    ensures { result ≡ judge_by finite time falling }
{
    if !finite {
        return Err(Refusal::NotFinite);
    }
    if is_sign_negative(time) {
        return Err(Refusal::NegativeTime);
    }
    if falling {
        return Err(Refusal::FallingTime);
    }
    Ok(())
}

// The same after rows that were accepted up to the last time.
#[tactic(auto, unfolding(crate::specs::Refusals::judge))]
pub fn judge(finite: bool, time: f64, last: Option<f64>) -> Verdict
    ensures { result ≡ judge finite time last }
{
    judge_by(finite, time, above(last, time))
}
