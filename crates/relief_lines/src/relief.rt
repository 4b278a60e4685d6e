// Relief lines: the columns of a row and of an answer, a row made of its words and written by them, commands made into words.
ghost use Rattle.std.specs.Prelude.{refl, true};
ghost use Rattle.relief_fan_group.specs.declared.types.ReliefState.{ReliefState};
ghost use Rattle.relief_fan_group.specs.Lent.{lent_state};
ghost use Rattle.relief_lines.specs.Relief.{relief_row_forms, relief_answer_forms, relief_kind};
ghost use Rattle.relief_lines.specs.Sized.{relief_sized};

use columns::forms::Form;
use columns::word::{of_pattern, pattern, signed_word, word_signed, yes_no_word};
use refusals::Refusal;
use relief_fan_group::lent::relief_row_lent;
use relief_fan_group::types::{ReliefCommands, ReliefHeld, ReliefRow};
use relief_fan_group::verdict::numbers_finite;
use row_writer::lines::RowLines;

// The lines of relief rows.
pub struct ReliefLines;

impl RowLines<12, 10> for ReliefLines {
    type Row = ReliefRow;

    type Commands = ReliefCommands;

    type State = ReliefHeld;

    const ROW: [Form; 12] = [
        Form::Float, // time
        Form::YesNo, // supply 1
        Form::YesNo, // supply 2
        Form::Float, // pressure
        Form::Signed, // alarm 1
        Form::Signed, // alarm 2
        Form::Signed, // alarm 3
        Form::Signed, // alarm 4
        Form::YesNo, // proof 1
        Form::YesNo, // proof 2
        Form::YesNo, // proof 3
        Form::YesNo, // proof 4
    ];

    const ANSWER: [Form; 10] = [
        Form::Unsigned, // status
        Form::Float, // averaged_pressure
        Form::Float, // fan_speed_1
        Form::Float, // fan_speed_2
        Form::Float, // fan_speed_3
        Form::Float, // fan_speed_4
        Form::Float, // damper_1
        Form::Float, // damper_2
        Form::Float, // damper_3
        Form::Float, // damper_4
    ];

    ghost ROW = { relief_row_forms };

    ghost ANSWER = { relief_answer_forms };

    ghost Held = { ReliefState };

    ghost held = { lent_state };

    ghost has_window = { true };

    ghost kind = { relief_kind };

    #[tactic(auto, unfolding(crate::specs::Relief::relief_row_of))]
    fn row_of(words: &[u64; 12]) -> ReliefRow {
        ReliefRow {
            time: of_pattern(words[0]),
            supply: [words[1] == 1, words[2] == 1],
            pressure: of_pattern(words[3]),
            alarm: [
                word_signed(words[4]),
                word_signed(words[5]),
                word_signed(words[6]),
                word_signed(words[7]),
            ],
            proof: [words[8] == 1, words[9] == 1, words[10] == 1, words[11] == 1],
        }
    }

    #[tactic(auto, using(crate::proofs::Back::relief_row_back), unfolding(crate::specs::Relief::relief_row_words))]
    fn row_words(row: ReliefRow) -> [u64; 12] {
        [
            pattern(row.time),
            yes_no_word(row.supply[0]),
            yes_no_word(row.supply[1]),
            pattern(row.pressure),
            signed_word(row.alarm[0]),
            signed_word(row.alarm[1]),
            signed_word(row.alarm[2]),
            signed_word(row.alarm[3]),
            yes_no_word(row.proof[0]),
            yes_no_word(row.proof[1]),
            yes_no_word(row.proof[2]),
            yes_no_word(row.proof[3]),
        ]
    }

    fn is_finite(row: ReliefRow) -> bool {
        numbers_finite(row)
    }

    #[tactic(auto, unfolding(crate::specs::Relief::relief_command_words))]
    fn command_words(commands: ReliefCommands) -> [u64; 10] {
        [
            0, // status
            pattern(commands.averaged_pressure),
            pattern(commands.fan_speed_1),
            pattern(commands.fan_speed_2),
            pattern(commands.fan_speed_3),
            pattern(commands.fan_speed_4),
            pattern(commands.damper_1),
            pattern(commands.damper_2),
            pattern(commands.damper_3),
            pattern(commands.damper_4),
        ]
    }

    fn step(
        state: &mut ReliefHeld,
        times: &mut [f64; 512],
        integrals: &mut [f64; 512],
        row: ReliefRow,
    ) -> Result<ReliefCommands, Refusal> {
        let step = relief_row_lent(*state, times, integrals, row);
        *state = step.state;
        step.answer
    }

    ghost row_count = { refl };

    ghost answer_count = { refl };

    ghost row_forms = { refl };

    ghost answer_forms = { refl };

    ghost sized = { relief_sized };
}
