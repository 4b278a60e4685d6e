// A fresh state, a row's signals and commands, the state after an accepted row, and the row itself: the public operation of the economizer.
ghost use Rattle.std.specs.Prelude.{◌≡◌};
ghost use Rattle.economizer_controller.specs.Step.{economizer_fresh, economizer_signals, economizer_commands, economizer_next, economizer_row};

use crate::damper_limits::{damper_limits, minimum_outdoor_air_loop_enabled};
use crate::enable::{EnableState, enable_limits};
use crate::relief::relief_modulation;
use crate::types::{
    EconomizerCommands, EconomizerRow, EconomizerSignals, EconomizerState, EconomizerStep,
};
use crate::verdict::economizer_verdict;
use reals::pid_with_reset::PidWithResetState;
use refusals::step::step_by;

// The fixed dry-bulb cutoff, in kelvin: 21 °C.
const OUTDOOR_AIR_CUTOFF: f64 = 294.15;

// The state of a start, before any row.
#[tactic(auto, unfolding(crate::specs::Step::economizer_fresh))]
pub fn economizer_fresh() -> EconomizerState
    ensures { result ≡ economizer_fresh }
{
    EconomizerState {
        last: None,
        minimum_outdoor_air_loop: PidWithResetState::new(),
        enable: EnableState::new(),
    }
}

// The first two passes: every block's output at a row, and the limits worked from them.
#[tactic(auto, unfolding(crate::specs::Step::economizer_signals))]
pub fn economizer_signals(state: EconomizerState, row: EconomizerRow) -> EconomizerSignals
    ensures { result ≡ economizer_signals state row }
{
    let setpoint = row.minimum_outdoor_airflow_setpoint_normalized;
    let airflow = row.outdoor_airflow_normalized;
    let fan = row.supply_fan_status;
    let loop_signal = state.minimum_outdoor_air_loop.output(setpoint, airflow);
    let loop_enabled = minimum_outdoor_air_loop_enabled(fan, row.operation_mode);
    let limits = damper_limits(loop_signal, loop_enabled);
    let enable = state.enable.output(
        row.time,
        row.outdoor_air_temperature,
        OUTDOOR_AIR_CUTOFF,
        fan,
        row.freeze_protection_stage,
    );
    let closed = enable_limits(enable, limits);
    EconomizerSignals {
        loop_signal,
        minimum_outdoor_air_loop_enabled: loop_enabled,
        damper_limits: limits,
        enable,
        enable_limits: closed,
    }
}

// The third pass, and the outputs.
#[tactic(auto, unfolding(crate::specs::Step::economizer_commands))]
pub fn economizer_commands(row: EconomizerRow, signals: EconomizerSignals) -> EconomizerCommands
    ensures { result ≡ economizer_commands row signals }
{
    let limits = signals.damper_limits;
    let enable = signals.enable_limits;
    let modulation = relief_modulation(row.supply_temperature_signal, limits, enable);
    EconomizerCommands {
        outdoor_damper_min_limit: limits.outdoor_damper_min_limit,
        minimum_outdoor_air_loop_enabled: signals.minimum_outdoor_air_loop_enabled,
        outdoor_damper_command: modulation.outdoor_damper_command,
        return_damper_command: modulation.return_damper_command,
    }
}

// The state after an accepted row with these signals. A rising fan resets the loop, after its output.
#[tactic(auto, unfolding(crate::specs::Step::economizer_next))]
pub fn economizer_next(
    state: EconomizerState,
    row: EconomizerRow,
    signals: EconomizerSignals,
) -> EconomizerState
    ensures { result ≡ economizer_next state row signals }
{
    let t = row.time;
    let setpoint = row.minimum_outdoor_airflow_setpoint_normalized;
    let airflow = row.outdoor_airflow_normalized;
    let fan = row.supply_fan_status;
    let next_loop = state
        .minimum_outdoor_air_loop
        .update(t, setpoint, airflow, fan);
    EconomizerState {
        last: Some(t),
        minimum_outdoor_air_loop: next_loop,
        enable: state.enable.update(t, signals.enable),
    }
}

// One row: its commands and the next state, or its refusal and the old state.
#[tactic(auto, unfolding(crate::specs::Step::economizer_row, crate::specs::Step::step_by))]
pub fn economizer_row(state: EconomizerState, row: EconomizerRow) -> EconomizerStep
    ensures { result ≡ economizer_row state row }
{
    step_by(economizer_verdict(state, row), state, || {
        let signals = economizer_signals(state, row);
        (
            economizer_commands(row, signals),
            economizer_next(state, row, signals),
        )
    })
}
