// Freeze lines: the columns of a row and of an answer, a row made of its words and written by them, commands made into words.
ghost use Rattle.std.specs.Prelude.{refl, false};
ghost use Rattle.freeze_protection.specs.declared.types.FreezeState.{FreezeState};
ghost use Rattle.freeze_lines.specs.Freeze.{freeze_row_forms, freeze_answer_forms, freeze_kind};
ghost use Rattle.freeze_lines.specs.Sized.{freeze_sized};

use columns::forms::Form;
use columns::word::{of_pattern, pattern, yes_no_word};
use freeze_protection::step::freeze_row;
use freeze_protection::types::{FreezeCommands, FreezeRow, FreezeState};
use freeze_protection::verdict::numbers_finite;
use refusals::Refusal;
use row_writer::lines::RowLines;

// The lines of freeze rows.
pub struct FreezeLines;

impl RowLines<12, 12> for FreezeLines {
    type Row = FreezeRow;

    type Commands = FreezeCommands;

    type State = FreezeState;

    const ROW: [Form; 12] = [
        Form::Float, // time
        Form::Float, // outdoor_damper_min_position
        Form::Float, // outdoor_damper
        Form::Float, // heating_coil
        Form::Float, // minimum_outdoor_damper
        Form::Float, // return_damper
        Form::Float, // supply_air_temperature
        Form::YesNo, // software_reset
        Form::YesNo, // supply_fan_status
        Form::Float, // supply_fan_speed
        Form::Float, // cooling_coil
        Form::Float, // mixed_air_temperature
    ];

    const ANSWER: [Form; 12] = [
        Form::Unsigned, // status
        Form::Unsigned, // freeze_protection_stage
        Form::YesNo, // chilled_water_pump_enable
        Form::Float, // return_damper_command
        Form::Float, // outdoor_damper_command
        Form::Float, // minimum_outdoor_damper_command
        Form::YesNo, // supply_fan_status
        Form::Float, // supply_fan_speed
        Form::Float, // cooling_coil_command
        Form::Float, // heating_coil_command
        Form::Unsigned, // hot_water_plant_request
        Form::Unsigned, // alarm_level
    ];

    ghost ROW = { freeze_row_forms };

    ghost ANSWER = { freeze_answer_forms };

    ghost Held = { FreezeState };

    ghost held = { λ state times integrals. state };

    ghost has_window = { false };

    ghost kind = { freeze_kind };

    #[tactic(auto, unfolding(crate::specs::Freeze::freeze_row_of))]
    fn row_of(words: &[u64; 12]) -> FreezeRow {
        FreezeRow {
            time: of_pattern(words[0]),
            outdoor_damper_min_position: of_pattern(words[1]),
            outdoor_damper: of_pattern(words[2]),
            heating_coil: of_pattern(words[3]),
            minimum_outdoor_damper: of_pattern(words[4]),
            return_damper: of_pattern(words[5]),
            supply_air_temperature: of_pattern(words[6]),
            software_reset: words[7] == 1,
            supply_fan_status: words[8] == 1,
            supply_fan_speed: of_pattern(words[9]),
            cooling_coil: of_pattern(words[10]),
            mixed_air_temperature: of_pattern(words[11]),
        }
    }

    #[tactic(auto, using(crate::proofs::Back::Fits, crate::proofs::Back::freeze_row_back), unfolding(crate::specs::Freeze::freeze_row_words))]
    fn row_words(row: FreezeRow) -> [u64; 12] {
        [
            pattern(row.time),
            pattern(row.outdoor_damper_min_position),
            pattern(row.outdoor_damper),
            pattern(row.heating_coil),
            pattern(row.minimum_outdoor_damper),
            pattern(row.return_damper),
            pattern(row.supply_air_temperature),
            yes_no_word(row.software_reset),
            yes_no_word(row.supply_fan_status),
            pattern(row.supply_fan_speed),
            pattern(row.cooling_coil),
            pattern(row.mixed_air_temperature),
        ]
    }

    fn is_finite(row: FreezeRow) -> bool {
        numbers_finite(row)
    }

    #[tactic(auto, unfolding(crate::specs::Freeze::freeze_command_words))]
    fn command_words(commands: FreezeCommands) -> [u64; 12] {
        [
            0, // status
            commands.freeze_protection_stage,
            yes_no_word(commands.chilled_water_pump_enable),
            pattern(commands.return_damper_command),
            pattern(commands.outdoor_damper_command),
            pattern(commands.minimum_outdoor_damper_command),
            yes_no_word(commands.supply_fan_status),
            pattern(commands.supply_fan_speed),
            pattern(commands.cooling_coil_command),
            pattern(commands.heating_coil_command),
            commands.hot_water_plant_request,
            commands.alarm_level,
        ]
    }

    fn step(
        state: &mut FreezeState,
        times: &mut [f64; 512],
        integrals: &mut [f64; 512],
        row: FreezeRow,
    ) -> Result<FreezeCommands, Refusal> {
        let step = freeze_row(*state, row);
        *state = step.state;
        step.answer
    }

    ghost row_count = { refl };

    ghost answer_count = { refl };

    ghost row_forms = { refl };

    ghost answer_forms = { refl };

    ghost sized = { freeze_sized };
}
