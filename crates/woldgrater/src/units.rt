// A board of six rooftop units, a call a command, in memory that the caller holds: waiting rows, the units' states and the arrays of their windows.
ghost use Rattle.std.specs.Prelude.{ℕ, ◌≡◌, map, slice_index};
ghost use Rattle.block_words.specs.Flags.{word_flag};
ghost use Rattle.board.specs.Board.{offer};
ghost use Rattle.board.specs.Rooftops.{board_start, board_tick};
ghost use Rattle.rooftop.specs.Step.{rooftop_start};
ghost use Rattle.rooftop_words.specs.RooftopRow.{rooftop_row_of};
ghost use Rattle.woldgrater.specs.Rooftop.{rooftop_memory};
ghost use Rattle.woldgrater.specs.Units.{unit_memory, board_in, board_offered, board_ticked};

use crate::answered::Answered;
use crate::joined::woldgrater_rooftop_start;
use board::lines::{offer_row, serve_row};
use rooftop::lent::rooftop_row_lent;
use rooftop::types::{RooftopHeld, RooftopRow};
use rooftop_words::rooftop_commands::RooftopCommandsWords;
use rooftop_words::rooftop_row::RooftopRowWords;
use rooftop_words::rooftop_state::RooftopWords;

// A board: the unit asked first at the next tick, where any number above 5 is as 0; how many rows wait for each unit, where any number above 4 is as 4; the
// places of each unit's line, of which the first so many hold the rows that wait, the next to be served first; the units' states, and the arrays of their
// relief windows.
#[repr(C)]
pub struct BoardWords {
    pub turn: usize,
    pub counts: [usize; 6],
    pub rows: [[RooftopRowWords; 4]; 6],
    pub units: [RooftopWords; 6],
    pub times: [[f64; 512]; 6],
    pub integrals: [[f64; 512]; 6],
}

// What a tick served: 1, the unit, and the status and the commands of its row as the unit's own call would give them. Where no row waited all is 0.
#[repr(C)]
#[derive(Clone, Copy)]
pub struct BoardServed {
    pub served: u64,
    pub unit: usize,
    pub status: u64,
    pub commands: RooftopCommandsWords,
}

// Helper: each unit as it starts, in the manner that its word names.
fn start_units(
    units: &mut [RooftopWords; 6],
    times: &mut [[f64; 512]; 6],
    integrals: &mut [[f64; 512]; 6],
    keeps_hour: &[u64; 6],
)
    ensures { (u : ℕ) → unit_memory units.new times.new integrals.new u
        ≡ rooftop_memory (rooftop_start (word_flag (slice_index keeps_hour.now u))) }
{
    for unit in 0..6 {
        let unit_times = &mut times[unit];
        let unit_integrals = &mut integrals[unit];
        units[unit] = woldgrater_rooftop_start(unit_times, unit_integrals, keeps_hour[unit]);
    }
}

// A board's start, whatever stood in its memory: no row waits, each unit has started in the manner that its word names, and unit 0 is asked first.
pub fn woldgrater_board_start(board: &mut BoardWords, keeps_hour: &[u64; 6])
    ensures { board_in board.new ≡ board_start (map word_flag keeps_hour.now) }
{
    let row = RooftopRowWords {
        time: 0.0,
        supply_fan_status: 0,
        outdoor_airflow_normalized: 0.0,
        minimum_outdoor_airflow_setpoint_normalized: 0.0,
        supply_temperature_signal: 0.0,
        outdoor_air_temperature: 0.0,
        operation_mode: 0,
        heating_coil: 0.0,
        minimum_outdoor_damper: 0.0,
        supply_air_temperature: 0.0,
        software_reset: 0,
        supply_fan_speed: 0.0,
        cooling_coil: 0.0,
        mixed_air_temperature: 0.0,
        pressure: 0.0,
        alarm: [0; 4],
        proof: [0; 4],
    };
    start_units(
        &mut board.units,
        &mut board.times,
        &mut board.integrals,
        keeps_hour,
    );
    board.turn = 0;
    board.counts = [0; 6];
    board.rows = [[row; 4]; 6];
}

// A row is offered to a unit: it joins the unit's line, and the status is 0; or it is turned away, as the status tells, 12 or 13.
pub fn woldgrater_board_offer(board: &mut BoardWords, unit: usize, row: RooftopRowWords) -> u64
    ensures { (result, board_in board.new) ≡ board_offered (offer (board_in board.old) unit (rooftop_row_of row)) }
{
    match offer_row(&mut board.counts, &mut board.rows, unit, row) {
        Ok(()) => 0,
        Err(refusal) => refusal.number(),
    }
}

// A tick: one waiting row is served, accepted or refused; with none waiting nothing changes.
pub fn woldgrater_board_tick(board: &mut BoardWords) -> BoardServed
    ensures { (result, board_in board.new) ≡ board_ticked (board_tick (board_in board.old)) }
{
    match serve_row(&mut board.counts, &mut board.rows, board.turn) {
        None => BoardServed {
            served: 0,
            unit: 0,
            status: 0,
            commands: RooftopCommandsWords::default(),
        },
        Some((unit, row)) => {
            board.turn = unit + 1;
            let held = RooftopHeld::from(board.units[unit]);
            let times = &mut board.times[unit];
            let integrals = &mut board.integrals[unit];
            let step = rooftop_row_lent(held, times, integrals, RooftopRow::from(row));
            board.units[unit] = RooftopWords::from(step.state);
            let answered = Answered::from(step.answer);
            BoardServed {
                served: 1,
                unit,
                status: answered.status,
                commands: answered.commands,
            }
        }
    }
}
