// `RooftopRow` of rooftop as words. Written by tools/words.
ghost use Rattle.std.specs.Prelude.{◌≡◌, map};
ghost use Rattle.block_words.specs.Flags.{word_flag};
ghost use Rattle.rooftop_words.specs.RooftopRow.{rooftop_row_of};

use rooftop::types::RooftopRow;
use std::array;

#[repr(C)]
#[derive(Clone, Copy)]
pub struct RooftopRowWords {
    pub time: f64,
    pub supply_fan_status: u64,
    pub outdoor_airflow_normalized: f64,
    pub minimum_outdoor_airflow_setpoint_normalized: f64,
    pub supply_temperature_signal: f64,
    pub outdoor_air_temperature: f64,
    pub operation_mode: i64,
    pub heating_coil: f64,
    pub minimum_outdoor_damper: f64,
    pub supply_air_temperature: f64,
    pub software_reset: u64,
    pub supply_fan_speed: f64,
    pub cooling_coil: f64,
    pub mixed_air_temperature: f64,
    pub pressure: f64,
    pub alarm: [i64; 4],
    pub proof: [u64; 4],
}

impl From<RooftopRowWords> for RooftopRow {
    ghost from_gives = { λ w s. s ≡ rooftop_row_of w };

    #[tactic(auto, unfolding(crate::specs::RooftopRow::rooftop_row_of, block_words::specs::Flags::word_flag))]
    #[inline(always)]
    fn from(words: RooftopRowWords) -> Self {
        // By name first: the borrow checker takes some of these arrays from variables only.
        let alarm = words.alarm;
        let proof = flag_values_of_four(words.proof);
        RooftopRow {
            time: words.time,
            supply_fan_status: words.supply_fan_status != 0,
            outdoor_airflow_normalized: words.outdoor_airflow_normalized,
            minimum_outdoor_airflow_setpoint_normalized: words.minimum_outdoor_airflow_setpoint_normalized,
            supply_temperature_signal: words.supply_temperature_signal,
            outdoor_air_temperature: words.outdoor_air_temperature,
            operation_mode: words.operation_mode,
            heating_coil: words.heating_coil,
            minimum_outdoor_damper: words.minimum_outdoor_damper,
            supply_air_temperature: words.supply_air_temperature,
            software_reset: words.software_reset != 0,
            supply_fan_speed: words.supply_fan_speed,
            cooling_coil: words.cooling_coil,
            mixed_air_temperature: words.mixed_air_temperature,
            pressure: words.pressure,
            alarm,
            proof,
        }
    }
}

// A function of its own: the check does not find such a list written inside a long struct.
#[tactic(auto, unfolding(block_words::specs::Flags::word_flag))]
#[inline(always)]
fn flag_values_of_four(words: [u64; 4]) -> [bool; 4]
    ensures { result ≡ map word_flag words }
{
    array::from_fn(|i| words[i] != 0)
}
