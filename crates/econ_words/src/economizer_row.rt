// `EconomizerRow` of economizer_controller as words. Written by tools/words.
ghost use Rattle.std.specs.Prelude.{◌≡◌};
ghost use Rattle.econ_words.specs.EconomizerRow.{economizer_row_of};

use economizer_controller::types::EconomizerRow;

#[repr(C)]
#[derive(Clone, Copy)]
pub struct EconomizerRowWords {
    pub time: f64,
    pub outdoor_airflow_normalized: f64,
    pub minimum_outdoor_airflow_setpoint_normalized: f64,
    pub supply_temperature_signal: f64,
    pub outdoor_air_temperature: f64,
    pub supply_fan_status: u64,
    pub operation_mode: i64,
    pub freeze_protection_stage: i64,
}

impl From<EconomizerRowWords> for EconomizerRow {
    ghost from_gives = { λ w s. s ≡ economizer_row_of w };

    #[tactic(auto, unfolding(crate::specs::EconomizerRow::economizer_row_of, block_words::specs::Flags::word_flag))]
    #[inline(always)]
    fn from(words: EconomizerRowWords) -> Self {
        EconomizerRow {
            time: words.time,
            outdoor_airflow_normalized: words.outdoor_airflow_normalized,
            minimum_outdoor_airflow_setpoint_normalized: words.minimum_outdoor_airflow_setpoint_normalized,
            supply_temperature_signal: words.supply_temperature_signal,
            outdoor_air_temperature: words.outdoor_air_temperature,
            supply_fan_status: words.supply_fan_status != 0,
            operation_mode: words.operation_mode,
            freeze_protection_stage: words.freeze_protection_stage,
        }
    }
}
