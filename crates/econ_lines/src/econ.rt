// Economizer lines: the columns of a row and of an answer, a row made of its words and written by them, commands made into words.
ghost use Rattle.std.specs.Prelude.{refl, false};
ghost use Rattle.economizer_controller.specs.declared.types.EconomizerState.{EconomizerState};
ghost use Rattle.econ_lines.specs.Econ.{econ_row_forms, econ_answer_forms, econ_kind};
ghost use Rattle.econ_lines.specs.Sized.{econ_sized};

use columns::forms::Form;
use columns::word::{of_pattern, pattern, signed_word, word_signed, yes_no_word};
use economizer_controller::step::economizer_row;
use economizer_controller::types::{EconomizerCommands, EconomizerRow, EconomizerState};
use economizer_controller::verdict::numbers_finite;
use refusals::Refusal;
use row_writer::lines::RowLines;

// The lines of economizer rows.
pub struct EconLines;

impl RowLines<8, 5> for EconLines {
    type Row = EconomizerRow;

    type Commands = EconomizerCommands;

    type State = EconomizerState;

    const ROW: [Form; 8] = [
        Form::Float, // time
        Form::Float, // outdoor_airflow_normalized
        Form::Float, // minimum_outdoor_airflow_setpoint_normalized
        Form::Float, // supply_temperature_signal
        Form::Float, // outdoor_air_temperature
        Form::YesNo, // supply_fan_status
        Form::Signed, // operation_mode
        Form::Signed, // freeze_protection_stage
    ];

    const ANSWER: [Form; 5] = [
        Form::Unsigned, // status
        Form::Float, // outdoor_damper_min_limit
        Form::YesNo, // minimum_outdoor_air_loop_enabled
        Form::Float, // outdoor_damper_command
        Form::Float, // return_damper_command
    ];

    ghost ROW = { econ_row_forms };

    ghost ANSWER = { econ_answer_forms };

    ghost Held = { EconomizerState };

    ghost held = { λ state times integrals. state };

    ghost has_window = { false };

    ghost kind = { econ_kind };

    #[tactic(auto, unfolding(crate::specs::Econ::econ_row_of))]
    fn row_of(words: &[u64; 8]) -> EconomizerRow {
        EconomizerRow {
            time: of_pattern(words[0]),
            outdoor_airflow_normalized: of_pattern(words[1]),
            minimum_outdoor_airflow_setpoint_normalized: of_pattern(words[2]),
            supply_temperature_signal: of_pattern(words[3]),
            outdoor_air_temperature: of_pattern(words[4]),
            supply_fan_status: words[5] == 1,
            operation_mode: word_signed(words[6]),
            freeze_protection_stage: word_signed(words[7]),
        }
    }

    #[tactic(auto, using(crate::proofs::Back::Fits, crate::proofs::Back::econ_row_back), unfolding(crate::specs::Econ::econ_row_words))]
    fn row_words(row: EconomizerRow) -> [u64; 8] {
        [
            pattern(row.time),
            pattern(row.outdoor_airflow_normalized),
            pattern(row.minimum_outdoor_airflow_setpoint_normalized),
            pattern(row.supply_temperature_signal),
            pattern(row.outdoor_air_temperature),
            yes_no_word(row.supply_fan_status),
            signed_word(row.operation_mode),
            signed_word(row.freeze_protection_stage),
        ]
    }

    fn is_finite(row: EconomizerRow) -> bool {
        numbers_finite(row)
    }

    #[tactic(auto, unfolding(crate::specs::Econ::econ_command_words))]
    fn command_words(commands: EconomizerCommands) -> [u64; 5] {
        [
            0, // status
            pattern(commands.outdoor_damper_min_limit),
            yes_no_word(commands.minimum_outdoor_air_loop_enabled),
            pattern(commands.outdoor_damper_command),
            pattern(commands.return_damper_command),
        ]
    }

    fn step(
        state: &mut EconomizerState,
        times: &mut [f64; 512],
        integrals: &mut [f64; 512],
        row: EconomizerRow,
    ) -> Result<EconomizerCommands, Refusal> {
        let step = economizer_row(*state, row);
        *state = step.state;
        step.answer
    }

    ghost row_count = { refl };

    ghost answer_count = { refl };

    ghost row_forms = { refl };

    ghost answer_forms = { refl };

    ghost sized = { econ_sized };
}
