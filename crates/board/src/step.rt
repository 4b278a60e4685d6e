// A board's start, a row offered to a unit, and a tick. The board is changed where it stands: it holds six relief windows, some 50,000 bytes.
ghost use Rattle.std.specs.Prelude.{◌≡◌, map};
ghost use Rattle.rooftop.specs.Step.{rooftop_start};
ghost use Rattle.board.specs.Board.{offer};
ghost use Rattle.board.specs.Rooftops.{board_of, board_start, board_tick};

use crate::lines::{offer_row, serve_row};
use crate::types::{Board, Served};
use refusals::Verdict;
use rooftop::step::{rooftop_row_mut, rooftop_start};
use rooftop::types::{RooftopAnswer, RooftopRow, RooftopState};

// Each unit as it starts in its manner.
fn units_start(keeps_hour: [bool; 6]) -> [RooftopState; 6]
    ensures { result ≡ map rooftop_start keeps_hour }
{
    [
        rooftop_start(keeps_hour[0]),
        rooftop_start(keeps_hour[1]),
        rooftop_start(keeps_hour[2]),
        rooftop_start(keeps_hour[3]),
        rooftop_start(keeps_hour[4]),
        rooftop_start(keeps_hour[5]),
    ]
}

// Before any row: no row waits, each unit has started in its manner, and unit 0 is asked first.
pub fn board_start(keeps_hour: [bool; 6]) -> Board
    ensures { board_of result ≡ board_start keeps_hour }
{
    let row = RooftopRow {
        time: 0.0,
        supply_fan_status: false,
        outdoor_airflow_normalized: 0.0,
        minimum_outdoor_airflow_setpoint_normalized: 0.0,
        supply_temperature_signal: 0.0,
        outdoor_air_temperature: 0.0,
        operation_mode: 0,
        heating_coil: 0.0,
        minimum_outdoor_damper: 0.0,
        supply_air_temperature: 0.0,
        software_reset: false,
        supply_fan_speed: 0.0,
        cooling_coil: 0.0,
        mixed_air_temperature: 0.0,
        pressure: 0.0,
        alarm: [0; 4],
        proof: [false; 4],
    };
    let units = units_start(keeps_hour);
    Board {
        counts: [0; 6],
        rows: [[row; 4]; 6],
        units,
        turn: 0,
    }
}

// A row is offered to a unit: it joins the unit's line, or is turned away, and the board is then as before.
pub fn board_offer(board: &mut Board, unit: usize, row: RooftopRow) -> Verdict
    ensures { (result, board_of board.new) ≡ offer (board_of board.old) unit row }
{
    offer_row(&mut board.counts, &mut board.rows, unit, row)
}

// A tick: one waiting row is served, accepted or refused, with the unit's number and its answer; with none waiting nothing changes.
pub fn board_tick(board: &mut Board) -> Option<Served<RooftopAnswer>>
    ensures { (result, board_of board.new) ≡ board_tick (board_of board.old) }
{
    match serve_row(&mut board.counts, &mut board.rows, board.turn) {
        None => None,
        Some((unit, row)) => {
            board.turn = unit + 1;
            let answer = rooftop_row_mut(&mut board.units[unit], row);
            Some(Served { unit, answer })
        }
    }
}
