// Every block's output at a row, in the order of `freeze_protection_trace`.
ghost use Rattle.std.specs.Prelude.{◌≡◌};
ghost use Rattle.freeze_protection.specs.Signals.{freeze_calls, stage_number, freeze_signals};

use crate::constants::{STAGE_1_SETPOINT, STAGE_3_SETPOINT};
use crate::types::{FreezeCalls, FreezeRow, FreezeSignals, FreezeState};
use reals::order::greater;

// The thresholds, the timers on them, the recovery edge and the hold of stage 2.
#[tactic(auto, unfolding(crate::specs::Signals::freeze_calls))]
pub fn freeze_calls(state: FreezeState, row: FreezeRow) -> FreezeCalls
    ensures { result ≡ freeze_calls state row }
{
    let t = row.time;
    let supply = row.supply_air_temperature;
    let les_thr_y = state.les_thr.output(supply);
    let tim = state.tim.output(t, les_thr_y);
    let gre_thr_y = state.gre_thr.output(supply);
    let tim1 = state.tim1.output(t, gre_thr_y);
    let end_sta_one_y = state.end_sta_one.output(tim1.passed);
    let les_thr1_y = state.les_thr1.output(supply);
    let tim2 = state.tim2.output(t, les_thr1_y);
    let hol_sta2_y = state.hol_sta2.output(t, tim2.passed);
    let tim3 = state.tim3.output(t, les_thr1_y);
    let les_thr2_y = state.les_thr2.output(supply);
    let tim4 = state.tim4.output(t, les_thr2_y);
    FreezeCalls {
        les_thr_y,
        tim,
        gre_thr_y,
        tim1,
        end_sta_one_y,
        les_thr1_y,
        tim2,
        hol_sta2_y,
        tim3,
        les_thr2_y,
        tim4,
    }
}

// Stage 3 before 2 before 1, else 0.
#[tactic(auto, unfolding(crate::specs::Signals::stage_number))]
pub fn stage_number(three: bool, two: bool, one: bool) -> u64
    ensures { result ≡ stage_number three two one }
{
    if three {
        return 3;
    }
    if two {
        return 2;
    }
    u64::from(one)
}

#[tactic(auto, unfolding(crate::specs::Signals::freeze_signals))]
pub fn freeze_signals(state: FreezeState, row: FreezeRow) -> FreezeSignals
    ensures { result ≡ freeze_signals state row }
{
    let t = row.time;
    let supply = row.supply_air_temperature;
    let calls = freeze_calls(state, row);
    let or8_y = calls.tim3.passed | calls.tim4.passed;
    let lat1_y = state.lat1.output(or8_y, row.software_reset);
    let tim5 = state.tim5.output(t, calls.hol_sta2_y);
    let end_sta_two_y = state.end_sta_two.output(tim5.passed);
    let lat2_y = state.lat2.output(calls.hol_sta2_y, end_sta_two_y);
    let or2_y = calls.tim.passed | end_sta_two_y;
    let lat_y = state.lat.output(or2_y, calls.end_sta_one_y);
    let stage = stage_number(lat1_y, lat2_y, lat_y);
    let stage_1_heat = state.hea_coil_stage_1.output(STAGE_1_SETPOINT, supply);
    let stage_3_measurement = greater(supply, row.mixed_air_temperature);
    let stage_3_heat = state
        .hea_coil_stage_3
        .output(STAGE_3_SETPOINT, stage_3_measurement);
    FreezeSignals {
        calls,
        or8_y,
        lat1_y,
        tim5,
        end_sta_two_y,
        lat2_y,
        or2_y,
        lat_y,
        stage,
        stage_1_heat,
        stage_3_measurement,
        stage_3_heat,
    }
}
