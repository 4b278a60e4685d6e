// The commands of the four fans: speeds, and dampers behind the alarm guard.
ghost use Rattle.std.specs.Prelude.{◌≡◌, ◌<◌};
ghost use Rattle.relief_fans.specs.Commands.{alarm_off_guard, fan_speed, damper, damper_at};

use reals::switch::bool_to_real;
use std::array;

// False for an alarm of level 2 while the fan is not proven on: its damper is then shut.
#[tactic(auto, unfolding(crate::specs::Commands::alarm_off_guard, crate::specs::Commands::is_level2))]
pub fn alarm_off_guard(alarm: i64, proof: bool) -> bool
    ensures { result ≡ alarm_off_guard alarm proof }
{
    (alarm != 2) | proof
}

// The common speed for each fan that is commanded on, 0 for the others; where the common speed is a NaN, so are all four.
#[tactic(auto, unfolding(crate::specs::Commands::fan_speed))]
pub fn fan_speed(speed_base: f64, log_swi: [bool; 4]) -> [f64; 4]
    ensures { result ≡ fan_speed speed_base log_swi }
{
    log_swi.map(|on| speed_base * bool_to_real(on))
}

// 1 for each damper that is commanded open and that the guard leaves so, 0 for the others.
#[tactic(auto, unfolding(crate::specs::Commands::damper))]
pub fn damper(log_swi2: [bool; 4], alarm: [i64; 4], proof: [bool; 4]) -> [f64; 4]
    ensures { result ≡ damper log_swi2 alarm proof }
{
    array::from_fn(
        |i|
            requires { i < 4 }
            ensures { result ≡ damper_at log_swi2 alarm proof i }
        {
            let guard = alarm_off_guard(alarm[i], proof[i]);
            bool_to_real(log_swi2[i]) * bool_to_real(guard)
        },
    )
}
