// What a relief row is refused for.
ghost use Rattle.std.specs.Prelude.{◌≡◌};
ghost use Rattle.relief_fan_group.specs.Verdict.{numbers_finite, after_judged, relief_verdict};

use crate::types::{ReliefBlocks, ReliefRow};
use reals::sign::is_finite;
use refusals::{Refusal, Verdict, judge};
use relief_fans::alarms::alarms_fit;

// Every number of the row, its time included, is finite. A function of each sequence: the rows have other fields.
#[tactic(auto, unfolding(crate::specs::Verdict::numbers_finite))]
pub fn numbers_finite(row: ReliefRow) -> bool
    ensures { result ≡ numbers_finite row }
{
    is_finite(row.time) & is_finite(row.pressure)
}

// After refusals 1, 2 and 3: 11 where an alarm does not fit its byte; 4 where the window is full.
#[tactic(auto, unfolding(crate::specs::Verdict::after_judged, refusals::specs::Refusals::verdict_or_refused))]
pub fn after_judged(judged: Verdict, alarm: [i64; 4], full: bool) -> Verdict
    ensures { result ≡ after_judged judged alarm full }
{
    judged?;
    if !alarms_fit(alarm) {
        return Err(Refusal::AlarmOutOfRange);
    }
    if full {
        return Err(Refusal::WindowFull);
    }
    Ok(())
}

// Refusals 1, 2 and 3; 11 where an alarm does not fit its byte; 4 where the window is full for the row's time.
#[tactic(auto, unfolding(crate::specs::Verdict::relief_verdict))]
pub fn relief_verdict(blocks: ReliefBlocks, row: ReliefRow, full: bool) -> Verdict
    ensures { result ≡ relief_verdict blocks row full }
{
    let judged = judge(numbers_finite(row), row.time, blocks.last);
    after_judged(judged, row.alarm, full)
}
