// 01, "Lamps and seconds": the step table. There is nothing to run: the lamp words of all diagrams and the directory of phase
// orders are defined in specs/, and what 01 and 02 ask of them is proved in proofs/. The functions that are proved to read them
// are the crate `diagram_calls`.

#![tactic(auto)]

// The steps of a phase: green, walk flash, red man, yellow, all-red.
pub const STEPS_A_PHASE: u16 = 5;

// What a step shows: "a 64-bit steady word and a flashing word".
#[derive(Clone, Copy)]
pub struct LampRow {
    pub steady: u64,
    pub flashing: u64,
}
