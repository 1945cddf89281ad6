// 01, "Lamps and seconds": the seconds of a step, and what each second of a plan's cycle shows.

#![tactic(auto)]

ghost use Rattle.std.specs.Prelude.{◌≡◌, ◌≤◌, ◌<◌, length, get_or};
ghost use Rattle.record.specs.Record.{k_of, ready_end};
ghost use Rattle.lamps.specs.Rows.{green_less, table_of, phase_table, table_sum, row_of, phase_rows, no_row, row_at};

use lamps::{NO_ROW, Row};
use record::{ALL_RED, GREEN_LEN, RED_MAN, WALK_FLASH, YELLOW};

const STEPS: usize = diagram::STEPS_A_PHASE as usize;

// "green less walk flash less red man", and never below 0.
fn green_less(green: u16, flash: u8, man: u8) -> u16
    ensures { result ≡ green_less green flash man }
{
    green
        .saturating_sub(u16::from(flash))
        .saturating_sub(u16::from(man))
}

// The seconds of a phase's five steps, from its green, walk flash, red man, yellow and all-red.
fn table_of(green: u16, flash: u8, man: u8, yellow: u8, red: u8) -> [u16; STEPS]
    ensures { result ≡ table_of green flash man yellow red }
{
    let before_flash = green_less(green, flash, man);
    [
        before_flash,
        u16::from(flash),
        u16::from(man),
        u16::from(yellow),
        u16::from(red),
    ]
}

// Those of a phase whose octets are all there, as a running plan's are: each is read once, and none is asked for first.
#[tactic(auto, unfolding(lamps::specs::Rows::phase_table))]
fn table_in(rec: &[u8], i: u8) -> [u16; STEPS]
    requires { (i < k_of rec.now) × (ready_end rec.now ≤ length rec.now) }
    ensures { result ≡ phase_table rec.now i }
{
    let times = record::times_at(i);
    let green = record::greens_at(rec) + GREEN_LEN * usize::from(i);
    table_of(
        octets::word(rec[green], rec[green + 1]),
        rec[times + WALK_FLASH],
        rec[times + RED_MAN],
        rec[times + YELLOW],
        rec[times + ALL_RED],
    )
}

// Those of a phase of any octets, of which some may not be there.
#[tactic(auto, unfolding(lamps::specs::Rows::phase_table))]
fn phase_table(rec: &[u8], i: u8) -> [u16; STEPS]
    requires { i < k_of rec.now }
    ensures { result ≡ phase_table rec.now i }
{
    if record::ready_end(rec) <= rec.len() {
        return table_in(rec, i);
    }
    table_of(
        record::green(rec, i),
        record::walk_flash(rec, i),
        record::red_man(rec, i),
        record::yellow(rec, i),
        record::all_red(rec, i),
    )
}

// Their sum, which may be past the greatest that 16 bits hold.
fn table_sum(table: [u16; STEPS]) -> u32
    ensures { result ≡ table_sum table }
{
    table.iter().map(|seconds| u32::from(*seconds)).sum()
}

// A second of a step: its lamps are the diagram's.
fn row_of(order: u8, step: u16, left: u16) -> Row
    ensures { result ≡ row_of order step left }
{
    let lamps = diagram_calls::lamp_row(order, step);
    Row {
        step,
        left,
        steady: lamps.steady,
        flashing: lamps.flashing,
    }
}

// What a phase with these seconds shows, so many of them on: the step that they fall into.
fn row_in(rec: &[u8], i: u8, table: [u16; STEPS], on: u16) -> Row
    requires { (i < k_of rec.now) × (table ≡ phase_table rec.now i) }
    ensures { result ≡ get_or (phase_rows rec.now i) on no_row }
{
    let first = diagram::STEPS_A_PHASE * i as u16 + 1;
    let mut rest = on;
    for (j, here) in table.iter().enumerate() {
        if rest < *here {
            return row_of(record::order(rec), first + j as u16, *here - rest);
        }
        rest = rest - *here;
    }
    NO_ROW
}

// What a plan's record shows at a position of its cycle; past the cycle's end all is 0, and so is the step. The phases before
// are passed over whole.
pub fn row_at(rec: &[u8], position: u16) -> Row
    ensures { result ≡ row_at rec.now position }
{
    let k = record::count(rec);
    let mut rest = position;
    for i in 0..k {
        let table = phase_table(rec, i);
        let whole = table_sum(table);
        if (rest as u32) < whole {
            return row_in(rec, i, table, rest);
        }
        rest = rest - whole as u16;
    }
    NO_ROW
}
