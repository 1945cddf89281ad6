// 01, "Lamps and seconds": the seconds of a step, and what each second of a plan's cycle shows. There is nothing to run: it is defined
// in specs/, and what 01 asks of it is proved in proofs/. The functions that are proved to do so are the crate `lamps_calls`.

#![tactic(auto)]

// One second of a cycle: its step, the seconds left in the step with this one counted, and the lamps.
#[derive(Clone, Copy)]
pub struct Row {
    pub step: u16,
    pub left: u16,
    pub steady: u64,
    pub flashing: u64,
}

// Where there is no row: step 0, which no row has, and all lamps dark.
pub const NO_ROW: Row = Row {
    step: 0,
    left: 0,
    steady: 0,
    flashing: 0,
};
