// Blocks on their own, on cases with known answers: a line for each case, with the block's output at each row, 1 for true and 0 for false.
// The file stdout holds what the blocks of the Rust give on the same rows (compare/stored).
#![tactic(auto)]

use columns::word::pattern;
use logical::elapsed_timer::ElapsedTimerState;
use logical::held_timer::HeldTimerState;
use logical::present_timer::PresentTimerState;
use logical::true_delay::TrueDelayState;
use logical::true_delay_on_init::TrueDelayOnInitState;
use logical::true_false_hold::TrueFalseHoldState;
use reals::hysteresis::HysteresisState;
use reals::kept_hysteresis::KeptHysteresisState;
use reals::pid::PidState;
use reals::threshold::ThresholdState;
use std::io;

// A case: its text, then what the block gives at each row, which `row` tells with the next block.
fn play<B: Copy, R: Copy, F: Fn(B, R) -> (u64, B)>(
    rt: &impl Print,
    case: &str,
    fresh: B,
    rows: &[R],
    row: F,
) -> io::Result<()>
    requires { F.IsAlwaysCallable row }
{
    rt.print(case)?;
    let mut block = fresh;
    for input in rows {
        let (output, next) = row(block, *input);
        print!(rt; " {output}")?;
        block = next;
    }
    rt.print("\n")
}

// E2: the economizer's delays are true on row 0 if the input is; later they start false.
fn delay(rt: &impl Print, case: &str, seconds: f64, rows: &[(f64, bool)]) -> io::Result<()> {
    play(rt, case, TrueDelayState::new(), rows, |s, (t, u)| {
        (u64::from(s.output(t, u, seconds)), s.update(t, u, seconds))
    })
}

fn economizer_delay_on_row_0(rt: &impl Print) -> io::Result<()> {
    let case = "E2 economizer delay 180 s, true from 0 s, at 0 60:";
    delay(rt, case, 180.0, &[(0.0, true), (60.0, true)])
}

fn outdoor_delay(rt: &impl Print) -> io::Result<()> {
    let case = "E2 economizer delay 15 s, true from 60 s, at 0 60 74 75:";
    let rows = [(0.0, false), (60.0, true), (74.0, true), (75.0, true)];
    delay(rt, case, 15.0, &rows)
}

fn return_delay(rt: &impl Print) -> io::Result<()> {
    let case = "E2 economizer delay 180 s, true from 60 s, at 0 60 239 240:";
    let rows = [(0.0, false), (60.0, true), (239.0, true), (240.0, true)];
    delay(rt, case, 180.0, &rows)
}

// R4: the delay of the relief group waits on row 0 too.
fn relief_delay(rt: &impl Print) -> io::Result<()> {
    let case = "R4 relief delay 2 s, true from 0 s, at 0 1 2:";
    let fresh = TrueDelayOnInitState::new(2.0);
    play(rt, case, fresh, &[0.0, 1.0, 2.0], |s, t| {
        (u64::from(s.output(t, true)), s.update(t, true))
    })
}

// The two timers part where the time falls.
fn held_timer(rt: &impl Print) -> io::Result<()> {
    let case = "freeze timer 300 s, true from 0 s, at 0 299 300 200:";
    let fresh = HeldTimerState::new(300.0);
    play(rt, case, fresh, &[0.0, 299.0, 300.0, 200.0], |s, t| {
        (u64::from(s.output(t, true).passed), s.update(t, true))
    })
}

fn present_timer(rt: &impl Print) -> io::Result<()> {
    let case = "relief timer 300 s, true from 0 s, at 0 299 300 200:";
    let fresh = PresentTimerState::new(300.0);
    play(rt, case, fresh, &[0.0, 299.0, 300.0, 200.0], |s, t| {
        (u64::from(s.output(t, true).passed), s.update(t, true))
    })
}

// The hold adds the gaps: 0.8 s and 599.2 s, each rounded, are less than 600 s.
fn economizer_hold(rt: &impl Print) -> io::Result<()> {
    let case = "economizer hold 600 s, true at 0.3 s, false at 1.1 600.3 600.4:";
    let fresh = TrueFalseHoldState::new(600.0, 600.0);
    let rows = [(0.3, true), (1.1, false), (600.3, false), (600.4, false)];
    play(rt, case, fresh, &rows, |s, (t, u)| {
        (u64::from(s.output(t, u)), s.update(t, u))
    })
}

// F2: 277.55 is not cold. After a cold row, 277.79 is still cold and 277.81 is not.
fn cold_at_stage_1(rt: &impl Print) -> io::Result<()> {
    let case = "F2 cold at 277.55 K, supply 277.55 277.54 277.79 277.81 277.79:";
    let fresh = ThresholdState::below(277.55, 0.25);
    let rows = [277.55, 277.54, 277.79, 277.81, 277.79];
    play(rt, case, fresh, &rows, |s, supply| {
        (u64::from(s.output(supply)), s.update(supply))
    })
}

// E1: the difference must be above 0 to rise, and stays while at least -1.
fn economizer_hysteresis(rt: &impl Print) -> io::Result<()> {
    let case = "E1 economizer hysteresis, difference 0 0.5 0 -1 -1.25 0:";
    let rows = [0.0, 0.5, 0.0, -1.0, -1.25, 0.0];
    play(rt, case, HysteresisState::new(), &rows, |s, difference| {
        (u64::from(s.output(difference)), s.update(difference))
    })
}

// F7: how many rows, 60 s apart and off the setpoint, the loop takes until its output is a NaN. The rows are counted: there is no list of them.
fn rows_to_nan() -> u64 {
    let mut s = PidState::new();
    let mut t = 0.0;
    for n in 0..1000 {
        if s.output(279.15, 277.0).is_nan() {
            return n;
        }
        s = s.update(t, 279.15, 277.0);
        t += 60.0;
    }
    1000
}

fn freeze_loop(rt: &impl Print) -> io::Result<()> {
    let rows = rows_to_nan();
    println!(rt;
        "F7 freeze loop, 277 K against 279.15 K, rows 60 s apart, rows before a NaN: {rows}"
    )
}

// F7: at how many of rows 10 to 139 the loop's sum is between -132.4 and -132.3 times the sum before. The rows are counted here too.
fn growing_rows() -> u64 {
    let mut s = PidState::new();
    let mut t = 0.0;
    let mut rows = 0;
    for n in 0..140u64 {
        let before = s.integral;
        s = s.update(t, 279.15, 277.0);
        t += 60.0;
        let growth = s.integral / before;
        if (n >= 10) & (-132.4 < growth) & (growth < -132.3) {
            rows += 1;
        }
    }
    rows
}

fn freeze_loop_sum(rt: &impl Print) -> io::Result<()> {
    let rows = growing_rows();
    println!(rt; "F7 its sum grows 132-fold with alternate signs, rows of 10 to 139: {rows}")
}

// The block of cdl_recurrences.rs that no sequence uses.
fn kept_hysteresis(rt: &impl Print) -> io::Result<()> {
    let case = "hysteresis -1 0 of cdl_recurrences.rs, 0.5 nan -1 -2 nan:";
    let fresh = KeptHysteresisState::new(-1.0, 0.0, false);
    let rows = [0.5, f64::NAN, -1.0, -2.0, f64::NAN];
    play(rt, case, fresh, &rows, |s, u| {
        (u64::from(s.output(u)), s.update(u))
    })
}

// Elapsed seconds: `timer` of cdl_recurrences.rs, and the two timers of the sequences on the same rows. Each is held to the Rust's `timer`.
const ELAPSED: [(f64, bool); 5] = [
    (5.2, true),
    (5.6, true),
    (305.2, true),
    (306.0, false),
    (306.5, true),
];

fn elapsed_timer(rt: &impl Print) -> io::Result<()> {
    let case =
        "elapsed seconds, true at 5.2 5.6 305.2, false at 306, true at 306.5 s, patterns, of timer:";
    play(rt, case, ElapsedTimerState::new(), &ELAPSED, |s, (t, u)| {
        (pattern(s.output(t, u)), s.update(t, u))
    })
}

fn held_timer_elapsed(rt: &impl Print) -> io::Result<()> {
    let case = "the same, of the freeze timer:";
    let fresh = HeldTimerState::new(300.0);
    play(rt, case, fresh, &ELAPSED, |s, (t, u)| {
        (pattern(s.output(t, u).elapsed), s.update(t, u))
    })
}

fn present_timer_elapsed(rt: &impl Print) -> io::Result<()> {
    let case = "the same, of the relief timer:";
    let fresh = PresentTimerState::new(300.0);
    play(rt, case, fresh, &ELAPSED, |s, (t, u)| {
        (pattern(s.output(t, u).elapsed), s.update(t, u))
    })
}

fn main(rt: HostRuntime) -> io::Result<()> {
    cold_at_stage_1(&rt)?;
    freeze_loop(&rt)?;
    freeze_loop_sum(&rt)?;
    held_timer(&rt)?;
    relief_delay(&rt)?;
    present_timer(&rt)?;
    economizer_hysteresis(&rt)?;
    economizer_delay_on_row_0(&rt)?;
    outdoor_delay(&rt)?;
    return_delay(&rt)?;
    economizer_hold(&rt)?;
    kept_hysteresis(&rt)?;
    elapsed_timer(&rt)?;
    held_timer_elapsed(&rt)?;
    present_timer_elapsed(&rt)
}
