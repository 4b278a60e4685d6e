// `FreezeRow` of freeze_protection as words. Written by tools/words.
ghost use Rattle.std.specs.Prelude.{◌≡◌};
ghost use Rattle.freeze_words.specs.FreezeRow.{freeze_row_of};

use freeze_protection::types::FreezeRow;

#[repr(C)]
#[derive(Clone, Copy)]
pub struct FreezeRowWords {
    pub time: f64,
    pub outdoor_damper_min_position: f64,
    pub outdoor_damper: f64,
    pub heating_coil: f64,
    pub minimum_outdoor_damper: f64,
    pub return_damper: f64,
    pub supply_air_temperature: f64,
    pub software_reset: u64,
    pub supply_fan_status: u64,
    pub supply_fan_speed: f64,
    pub cooling_coil: f64,
    pub mixed_air_temperature: f64,
}

impl From<FreezeRowWords> for FreezeRow {
    ghost from_gives = { λ w s. s ≡ freeze_row_of w };

    #[tactic(auto, unfolding(crate::specs::FreezeRow::freeze_row_of, block_words::specs::Flags::word_flag))]
    #[inline(always)]
    fn from(words: FreezeRowWords) -> Self {
        FreezeRow {
            time: words.time,
            outdoor_damper_min_position: words.outdoor_damper_min_position,
            outdoor_damper: words.outdoor_damper,
            heating_coil: words.heating_coil,
            minimum_outdoor_damper: words.minimum_outdoor_damper,
            return_damper: words.return_damper,
            supply_air_temperature: words.supply_air_temperature,
            software_reset: words.software_reset != 0,
            supply_fan_status: words.supply_fan_status != 0,
            supply_fan_speed: words.supply_fan_speed,
            cooling_coil: words.cooling_coil,
            mixed_air_temperature: words.mixed_air_temperature,
        }
    }
}
