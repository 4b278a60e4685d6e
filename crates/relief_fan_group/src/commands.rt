// The outputs of a row, worked from its signals.
ghost use Rattle.std.specs.Prelude.{◌≡◌};
ghost use Rattle.relief_fan_group.specs.Commands.{fans_on, relief_commands};

use crate::types::{ReliefCommands, ReliefRow, ReliefSignals, StageDown, StageUp};
use reals::switch::switch;
use relief_fans::commands::{damper, fan_speed};
use relief_fans::flags::any_of;

// The fans that are commanded on: in a stage up those that are proven and the next to start, whatever a stage down asks; else in a stage down those that are proven, less
// the next to stop; else those that are proven.
#[tactic(auto, using(relief_fans::proofs::Switches::switch_is_each), unfolding(crate::specs::Commands::fans_on))]
pub fn fans_on(proof: [bool; 4], up: StageUp, down: StageDown) -> [bool; 4]
    ensures { result ≡ fans_on proof up down }
{
    let log_swi1 = switch(down.lat1_y, down.xor, proof);
    let log_swi3 = switch(up.all_fans_off, proof, log_swi1);
    switch(up.lat2_y, up.or2, log_swi3)
}

#[tactic(auto, using(relief_fans::proofs::Switches::switch_is_each), unfolding(crate::specs::Commands::relief_commands))]
pub fn relief_commands(row: ReliefRow, signals: ReliefSignals) -> ReliefCommands
    ensures { result ≡ relief_commands row signals }
{
    let log_swi = fans_on(row.proof, signals.up, signals.down);
    let speed_base = switch(
        signals.control.any_enabled,
        signals.control.gated_controller,
        0.0,
    );
    let log_swi2 = switch(any_of(log_swi), log_swi, signals.dampers.ena_dam);
    let speeds = fan_speed(speed_base, log_swi);
    let opened = damper(log_swi2, row.alarm, row.proof);
    ReliefCommands {
        averaged_pressure: signals.control.average,
        fan_speed_1: speeds[0],
        fan_speed_2: speeds[1],
        fan_speed_3: speeds[2],
        fan_speed_4: speeds[3],
        damper_1: opened[0],
        damper_2: opened[1],
        damper_3: opened[2],
        damper_4: opened[3],
    }
}
