// 01, "Lamps and seconds": the step table. The lamp words of all diagrams stand in one table, row by row; for each phase order
// there are its phases and its first row.

#![tactic(auto)]

ghost use Rattle.std.specs.Prelude.{◌≡◌, ◌+◌, ◌≤◌, ◌<◌, get_or};
ghost use Rattle.diagram.specs.Rows.{lamp_rows};
ghost use Rattle.diagram.specs.Table.{diagram_of, phases_of, steps_of, row_number, dark_row, lamp_row_of};
ghost use Rattle.diagram_calls.specs.Lines.{pair_at};

mod rows;

use crate::rows::{LINE_LEN, ROWS, TABLE};
use diagram::{LampRow, STEPS_A_PHASE};

// Where there is no row.
const DARK: LampRow = LampRow {
    steady: 0,
    flashing: 0,
};

const ROWS_A_LINE: usize = LINE_LEN / 2;

// The phases of an order; 0 where it is unknown. Each call asks for them while a plan of the book runs, so no table is read.
pub fn phases(order: u8) -> u8
    ensures { result ≡ phases_of order }
{
    match order {
        0x00 => 2,
        0x20 | 0x38 => 3,
        0x50..=0x57 | 0x60..=0x6d => 4,
        _ => 0,
    }
}

// The steps of an order; 0 where it is unknown.
fn steps(order: u8) -> u16
    ensures { result ≡ steps_of order }
{
    STEPS_A_PHASE * u16::from(phases(order))
}

// The first row of a known order, from 0. The diagrams of four phases have twenty rows each.
fn first_row(order: u8) -> u16
    ensures { 1 ≤ phases_of order → result ≡ (diagram_of order).first }
{
    match order {
        0x60.. => 200 + 20 * u16::from(order - 0x60),
        0x50.. => 40 + 20 * u16::from(order - 0x50),
        0x38 => 25,
        0x20 => 10,
        _ => 0,
    }
}

// The row of a step, from 0; past the table's end where there is no such step.
fn row_number(order: u8, step: u16) -> usize
    ensures { result ≡ row_number order step }
{
    if step == 0 || steps(order) < step {
        return ROWS;
    }
    usize::from(first_row(order)) + usize::from(step - 1)
}

// The two words that stand in a line from a place on.
fn pair_at(line: [u32; LINE_LEN], at: usize) -> LampRow
    requires { at + 1 < 40 }
    ensures { result ≡ pair_at line at }
{
    LampRow {
        steady: u64::from(line[at]),
        flashing: u64::from(line[at + 1]),
    }
}

// The row of this number, from 0. Each line is named by a number of its own and read where it is named, so that the program
// builds the one line and no table.
fn table_row(number: usize) -> LampRow
    requires { number < 480 }
    ensures { result ≡ get_or lamp_rows number dark_row }
{
    let t = TABLE;
    let line = number / ROWS_A_LINE;
    let at = 2 * (number % ROWS_A_LINE);
    match line {
        0 => pair_at(t[0], at),
        1 => pair_at(t[1], at),
        2 => pair_at(t[2], at),
        3 => pair_at(t[3], at),
        4 => pair_at(t[4], at),
        5 => pair_at(t[5], at),
        6 => pair_at(t[6], at),
        7 => pair_at(t[7], at),
        8 => pair_at(t[8], at),
        9 => pair_at(t[9], at),
        10 => pair_at(t[10], at),
        11 => pair_at(t[11], at),
        12 => pair_at(t[12], at),
        13 => pair_at(t[13], at),
        14 => pair_at(t[14], at),
        15 => pair_at(t[15], at),
        16 => pair_at(t[16], at),
        17 => pair_at(t[17], at),
        18 => pair_at(t[18], at),
        19 => pair_at(t[19], at),
        20 => pair_at(t[20], at),
        21 => pair_at(t[21], at),
        22 => pair_at(t[22], at),
        _ => pair_at(t[23], at),
    }
}

// The lamps of a step, the first step being 1; none where there is no such step.
pub fn lamp_row(order: u8, step: u16) -> LampRow
    ensures { result ≡ lamp_row_of order step }
{
    let number = row_number(order, step);
    if number < ROWS {
        return table_row(number);
    }
    DARK
}
