// Written by tools/words from the library woldgrater: an export says its clauses itself, and takes no generic record.
// A board of six rooftop units, a call a command, in memory that the caller holds: waiting rows, the units' states and the arrays of their windows.
ghost use Rattle.std.specs.Prelude.{◌≡◌, map};
ghost use Rattle.block_words.specs.Flags.{word_flag};
ghost use Rattle.board.specs.Board.{offer};
ghost use Rattle.board.specs.Rooftops.{board_start, board_tick};
ghost use Rattle.rooftop_words.specs.RooftopRow.{rooftop_row_of};
ghost use Rattle.woldgrater.specs.Units.{board_in, board_offered, board_ticked};

use rooftop_words::rooftop_row::RooftopRowWords;
use woldgrater::units::{BoardServed, BoardWords};

// A board's start, whatever stood in its memory: no row waits, each unit has started in the manner that its word names, and unit 0 is asked first.
#[unsafe(no_mangle)]
pub extern "C" fn woldgrater_board_start(board: &mut BoardWords, keeps_hour: &[u64; 6])
    ensures { board_in board.new ≡ board_start (map word_flag keeps_hour.now) }
{
    woldgrater::units::woldgrater_board_start(board, keeps_hour)
}

// A row is offered to a unit: it joins the unit's line, and the status is 0; or it is turned away, as the status tells, 12 or 13.
#[unsafe(no_mangle)]
pub extern "C" fn woldgrater_board_offer(
    board: &mut BoardWords,
    unit: usize,
    row: RooftopRowWords,
) -> u64
    ensures { (result, board_in board.new) ≡ board_offered (offer (board_in board.old) unit (rooftop_row_of row)) }
{
    woldgrater::units::woldgrater_board_offer(board, unit, row)
}

// A tick: one waiting row is served, accepted or refused; with none waiting nothing changes.
#[unsafe(no_mangle)]
pub extern "C" fn woldgrater_board_tick(board: &mut BoardWords) -> BoardServed
    ensures { (result, board_in board.new) ≡ board_ticked (board_tick (board_in board.old)) }
{
    woldgrater::units::woldgrater_board_tick(board)
}
