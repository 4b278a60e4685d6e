// What a kind of rows is to its reader and its writer: the columns of a row and of an answer, the row of its words and the words of it, and a row answered.
ghost use Rattle.std.specs.Prelude.{◌≡◌, List, Float, Bool, length};
ghost use Rattle.columns.specs.declared.forms.Form.{Form};
ghost use Rattle.line_stream.specs.RowKind.{RowKind, Stepped, Sized};
ghost use Rattle.row_writer.specs.Lines.{WindowLeft};
ghost use Rattle.row_writer.specs.Writing.{ReadsBack};

use columns::forms::Form;
use refusals::Refusal;

// A kind whose rows have N columns, and its answers M. The arrays of the relief window are lent with the state; a kind without a window leaves them as they are.
pub trait RowLines<const N: usize, const M: usize> {
    type Row: Copy;

    type Commands: Copy;

    type State: Copy;

    // The columns of a row, and of an answer.
    const ROW: [Form; N];

    const ANSWER: [Form; M];

    ghost ROW: { List Form };

    ghost ANSWER: { List Form };

    // The state with the window in it.
    ghost Held: { Type 0 };

    ghost held: { Self.State → List Float → List Float → Held };

    ghost has_window: { Bool };

    ghost kind: { RowKind Held Self.Row Self.Commands };

    // The row of its words.
    fn row_of(words: &[u64; N]) -> Self::Row
        ensures { result ≡ kind.row_of words.now };

    // The words of a row, whose line reads back as the row.
    fn row_words(row: Self::Row) -> [u64; N]
        ensures value { result ≡ kind.row_words row }
        ensures reads_back { ReadsBack kind row };

    // Whether every number of a row is finite.
    fn is_finite(row: Self::Row) -> bool
        ensures { result ≡ kind.finite row };

    // The words of an accepted row's answer: status 0 and the commands.
    fn command_words(commands: Self::Commands) -> [u64; M]
        ensures { result ≡ kind.command_words commands };

    // A row: its commands and the next state, or its refusal and the old state.
    fn step(
        state: &mut Self::State,
        times: &mut [f64; 512],
        integrals: &mut [f64; 512],
        row: Self::Row,
    ) -> Result<Self::Commands, Refusal>
        ensures stepped { Stepped kind (held state.old times.old integrals.old) row
            (held state.new times.new integrals.new) result }
        ensures window { WindowLeft has_window times.old integrals.old times.new integrals.new };

    ghost row_count: { length ROW ≡ N };

    ghost answer_count: { length ANSWER ≡ M };

    ghost row_forms: { kind.row_forms ≡ ROW };

    ghost answer_forms: { kind.answer_forms ≡ ANSWER };

    ghost sized: { Sized kind };
}
