// 01, "Plan book": what is stored and what is read and reported. There is nothing to run: what a set leaves, what reading gives and
// what a report holds is defined in specs/, and what 01 asks of them is proved in proofs/. The functions that are proved to do so
// are the crate `plan_calls`.

#![tactic(auto)]

// 02, E1: which built-in plan is plan 0.
#[derive(Clone, Copy)]
pub enum Which {
    New,
    Old,
}
