// The records of the board.
use rooftop::types::{RooftopRow, RooftopState};

// A board: the rows that wait, the units' states, and the number of the unit that is asked first at the next tick; any above 5 is as 0.
pub struct Board {
    // How many of a unit's places hold a row that waits: the first ones, the next to be served first. Any number above 4 is as 4.
    pub counts: [usize; 6],
    pub rows: [[RooftopRow; 4]; 6],
    pub units: [RooftopState; 6],
    pub turn: usize,
}

// What a tick served: the unit, and its answer.
#[derive(Clone, Copy)]
pub struct Served<A> {
    pub unit: usize,
    pub answer: A,
}
