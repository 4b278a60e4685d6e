// The fan constants of `relief_fan_group_trace` as a table of bytes, read by fan index, and what they make of the supply fans' states.
ghost use Rattle.std.specs.Prelude.{◌≡◌};
ghost use Rattle.relief_fans.specs.Table.{ena_rel, gai};

use reals::switch::bool_to_real;

// The weight of each relief fan: while both supply fans are on, the one with the lowest weight starts first.
pub const STA_VEC: [u8; 4] = [2, 3, 1, 4];

// The supply fan that each relief fan is on, counted from 0: the column of the 1 in its row of the Rust's `REL_FAN_MAT`.
pub const REL_FAN_SUPPLY: [u8; 4] = [0, 0, 1, 1];

// 1 for each relief fan whose supply fan is on, 0 for the others.
#[tactic(auto, unfolding(crate::specs::Table::ena_rel, reals::specs::Switch::bool_to_real))]
pub fn ena_rel(supply: [bool; 2]) -> [f64; 4]
    ensures { result ≡ ena_rel supply }
{
    REL_FAN_SUPPLY.map(|on| {
        let first = bool_to_real(on == 0) * bool_to_real(supply[0]);
        let second = bool_to_real(on == 1) * bool_to_real(supply[1]);
        first + second
    })
}

// The order of each enabled relief fan, its weight; 0 for the others.
#[tactic(auto, using(crate::proofs::Weighing::untouched, crate::proofs::Weighing::fan, crate::proofs::Weighing::most, crate::proofs::Weighing::turned, crate::proofs::Weighing::worked))]
pub fn gai(ena_rel: [f64; 4]) -> [f64; 4]
    ensures { result ≡ gai ena_rel }
{
    let mut out = ena_rel;
    let weights = STA_VEC;
    // What the fans still to come weigh, 0 after the last. With a fixed number of turns, as `std::array::from_fn` has, the compiler keeps each weight as
    // a float, and the table of bytes is not in the firmware: tools/test-fan-table refuses that.
    let mut left = weights[0] + weights[1] + weights[2] + weights[3];
    let mut i = 0;
    while left != 0 {
        let weight = weights[i];
        out[i] *= f64::from(weight);
        left -= weight;
        i += 1;
    }
    out
}
