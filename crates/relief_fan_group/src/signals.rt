// Every block's output at a row, in the order of `relief_fan_group_trace`.
ghost use Rattle.std.specs.Prelude.{◌≡◌};
ghost use Rattle.relief_fan_group.specs.Signals.{pressure_loop, pressure_control, damper_enable, stage_up, stage_down, relief_signals};

use crate::constants::{DP_BUI_SET, REL_FAN_SPEED_MIN};
use crate::types::{
    DamperEnable, PressureControl, ReliefBlocks, ReliefRow, ReliefSignals, StageDown, StageUp,
};
use reals::limits::limit;
use reals::order::smallest;
use reals::switch::{bool_to_real, switch};
use relief_fans::blocks::{delay_outputs, threshold_outputs};
use relief_fans::flags::{all_of, and_each, any_of, equal_each, not_each, or_each, xor_each};
use relief_fans::orders::{distance, pro1, pro2, swi};
use relief_fans::table::{ena_rel, gai};

// The pressure loop: the mean above the setpoint, normalized and limited to 0 .. 1.
#[tactic(auto, unfolding(crate::specs::Signals::pressure_loop))]
pub fn pressure_loop(average: f64) -> f64
    ensures { result ≡ pressure_loop average }
{
    limit(average / DP_BUI_SET - 1.0, 0.0, 1.0)
}

// The pressure loop with the minimum speed, and the fans that the supply fans enable.
#[tactic(auto, unfolding(crate::specs::Signals::pressure_control))]
pub fn pressure_control(blocks: ReliefBlocks, row: ReliefRow, average: f64) -> PressureControl
    ensures { result ≡ pressure_control blocks row average }
{
    let ena_rel_group = row.supply[0] | row.supply[1];
    let ena_rel = ena_rel(row.supply);
    let gai = gai(ena_rel);
    let controller = pressure_loop(average);
    let gated_controller = bool_to_real(ena_rel_group) * limit(controller, REL_FAN_SPEED_MIN, 1.0);
    let any_enabled = any_of(threshold_outputs(blocks.gre_thr3, ena_rel));
    PressureControl {
        average,
        controller,
        ena_rel_group,
        gated_controller,
        ena_rel,
        gai,
        any_enabled,
    }
}

// The latch of the stage-zero dampers, for each fan that is enabled.
#[tactic(auto, unfolding(crate::specs::Signals::damper_enable))]
pub fn damper_enable(blocks: ReliefBlocks, row: ReliefRow, control: PressureControl) -> DamperEnable
    ensures { result ≡ damper_enable blocks row control }
{
    let t = row.time;
    let damper_open = blocks.gre_thr.output(control.controller) & control.ena_rel_group;
    let damper_close_request = blocks.les_thr.output(control.controller);
    let tim = blocks.tim.output(t, damper_close_request);
    let lat_y = blocks.lat.output(damper_open, tim.passed);
    let ena_dam = and_each(threshold_outputs(blocks.gre_thr1, control.gai), lat_y);
    DamperEnable {
        damper_open,
        damper_close_request,
        tim,
        ena_dam,
    }
}

// The next fan to start, whether the started fans have proven, the up pulse and its latch.
#[tactic(auto, using(relief_fans::proofs::Switches::switch_is_swi3), unfolding(crate::specs::Signals::stage_up))]
pub fn stage_up(blocks: ReliefBlocks, row: ReliefRow, control: PressureControl) -> StageUp
    ensures { result ≡ stage_up blocks row control }
{
    let t = row.time;
    let all_fans_off = all_of(not_each(row.proof));
    let pro1 = pro1(control.gai, control.ena_rel, row.proof);
    let swi = swi(threshold_outputs(blocks.les_thr1, pro1), pro1);
    let next_stage_order = smallest(switch(all_fans_off, pro1, swi));
    let up_distance = distance(control.gai, next_stage_order);
    let or2 = or_each(threshold_outputs(blocks.les_thr2, up_distance), row.proof);
    let all_newly_started_proven = all_of(equal_each(
        delay_outputs(blocks.tru_del, t, or2),
        row.proof,
    ));
    let up_gate = blocks.gre_thr2.output(control.controller) & blocks.pre.output();
    let up_tim = blocks.up_tim.output(t, up_gate);
    let lat2_y = blocks.lat2.output(up_tim.passed, all_newly_started_proven);
    StageUp {
        all_fans_off,
        pro1,
        up_distance,
        or2,
        all_newly_started_proven,
        up_gate,
        up_tim,
        lat2_y,
    }
}

// The next fan to stop, whether the stopped fans have proven, the down pulse and its latch.
#[tactic(auto, unfolding(crate::specs::Signals::stage_down))]
pub fn stage_down(blocks: ReliefBlocks, row: ReliefRow, control: PressureControl) -> StageDown
    ensures { result ≡ stage_down blocks row control }
{
    let t = row.time;
    let pro2 = pro2(control.gai, row.proof);
    let next_down_order = smallest(swi(threshold_outputs(blocks.les_thr4, pro2), pro2));
    let down_distance = distance(control.gai, next_down_order);
    let xor = xor_each(threshold_outputs(blocks.les_thr5, down_distance), row.proof);
    let not5 = not_each(xor);
    let all_stopped_matches = all_of(xor_each(row.proof, delay_outputs(blocks.tru_del1, t, not5)));
    let down_gate = blocks.les_thr3.output(control.controller) & blocks.pre1.output();
    let dow_tim = blocks.dow_tim.output(t, down_gate);
    let lat1_y = blocks.lat1.output(dow_tim.passed, all_stopped_matches);
    StageDown {
        pro2,
        down_distance,
        xor,
        not5,
        all_stopped_matches,
        down_gate,
        dow_tim,
        lat1_y,
    }
}

#[tactic(auto, unfolding(crate::specs::Signals::relief_signals))]
pub fn relief_signals(blocks: ReliefBlocks, row: ReliefRow, average: f64) -> ReliefSignals
    ensures { result ≡ relief_signals blocks row average }
{
    let control = pressure_control(blocks, row, average);
    let dampers = damper_enable(blocks, row, control);
    let up = stage_up(blocks, row, control);
    let down = stage_down(blocks, row, control);
    ReliefSignals {
        control,
        dampers,
        up,
        down,
    }
}
