// The relief fan group: what a row's commands would be worked from, for a display or a logger, the alarms that a state remembers, and the line of a row.
// The arrays of the window are lent one by one, as C gives them.
ghost use Rattle.std.specs.Prelude.{◌≡◌};
ghost use Rattle.relief_fan_group.specs.Remembered.{relief_alarm};
ghost use Rattle.row_writer.specs.Writing.{write_row, ReadsBack};
ghost use Rattle.relief_lines.specs.Relief.{relief_kind};
ghost use Rattle.relief_words.specs.ReliefBlocks.{relief_blocks_of};
ghost use Rattle.relief_words.specs.ReliefRow.{relief_row_of};
ghost use Rattle.woldgrater.specs.Memory.{memory};
ghost use Rattle.woldgrater.specs.Relief.{relief_in};
ghost use Rattle.woldgrater_service.specs.Line.{LineLeft};
ghost use Rattle.woldgrater_service.specs.Shown.{relief_shown, alarm_given};

use crate::line::LineGiven;
use relief_fan_group::left::relief_left;
use relief_fan_group::remembered::relief_alarm;
use relief_fan_group::signals::relief_signals;
use relief_fan_group::types::{ReliefBlocks, ReliefHeld, ReliefRow};
use relief_fan_group::verdict::relief_verdict;
use relief_lines::relief::ReliefLines;
use relief_words::relief::ReliefWords;
use relief_words::relief_left::ReliefLeftWords;
use relief_words::relief_row::ReliefRowWords;
use relief_words::relief_signals::ReliefSignalsWords;
use row_writer::write_row;
use woldgrater::answered::Answered;

// A record for each sequence, since an export takes none that is generic.

// The status of a row, and what the commands of an accepted one are worked from.
// Beside it the seconds left on its timers.
#[repr(C)]
#[derive(Clone, Copy)]
pub struct ReliefShown {
    // 0, or the number of the refusal: C has no Result.
    pub status: u64,
    pub signals: ReliefSignalsWords,
    pub left: ReliefLeftWords,
}

// What the commands of a row would be worked from, and what is left on each timer. The state does not move.
#[tactic(auto, unfolding(crate::specs::Shown::relief_shown, relief_fan_group::specs::Step::signals_at, crate::specs::Shown::relief_shown_by))]
pub fn woldgrater_relief_signals<'a>(
    times: &'a [f64; 512],
    integrals: &'a [f64; 512],
    state: ReliefWords,
    row: ReliefRowWords,
) -> ReliefShown
    ensures { result ≡ relief_shown (relief_in (memory state times.now integrals.now))
        (relief_row_of row) }
{
    let ReliefHeld { integrator, blocks } = ReliefHeld::from(state);
    let sampled = ReliefRow::from(row);
    let full = integrator.is_full(times, sampled.time);
    let shown = relief_verdict(blocks, sampled, full).map(|()| {
        let average = integrator.output(times, integrals, sampled.time, sampled.pressure);
        relief_signals(blocks, sampled, average)
    });
    let left = Answered::from(shown.map(|signals| relief_left(blocks, signals)));
    let signals = Answered::from(shown);
    ReliefShown {
        status: signals.status,
        signals: signals.commands,
        left: left.commands,
    }
}

// The alarm of a fan at the last accepted row, 0 before any, and 1 where there is such a fan: for another index both are 0.
#[repr(C)]
#[derive(Clone, Copy)]
pub struct AlarmGiven {
    // 1 or 0: C has no Option.
    pub known: u64,
    pub alarm: i64,
}

// What a state remembers of the alarm of a fan, by its index from 0 to 3.
#[tactic(auto, unfolding(crate::specs::Shown::alarm_given))]
pub fn woldgrater_relief_alarm(state: ReliefWords, fan: usize) -> AlarmGiven
    ensures { result ≡ alarm_given (relief_alarm (relief_blocks_of state.blocks) fan) }
{
    let remembered = relief_alarm(ReliefBlocks::from(state.blocks), fan);
    remembered.map_or(
        AlarmGiven { known: 0, alarm: 0 },
        |alarm| AlarmGiven { known: 1, alarm },
    )
}

// Writes the line of a row, with its newline, at the start of out: refused with 1 where a number is not finite, or else with 10 where it does not fit, and no
// byte changes then. What is written reads back as the row.
pub fn woldgrater_relief_line(row: ReliefRowWords, out: &mut [u8]) -> LineGiven
    ensures line_left { LineLeft (write_row relief_kind (relief_row_of row) out.old 0) result out.new }
    ensures reads_back { ReadsBack relief_kind (relief_row_of row) }
{
    LineGiven::from(write_row::<ReliefLines, _, _>(out, 0, ReliefRow::from(row)))
}
