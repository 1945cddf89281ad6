// 01, "Cases": the listing: what it prints and what each line of its input does. There is nothing to run: the texts and the calls are
// defined in specs/, and what 01 asks of them is proved in proofs/. The functions that are proved to do so are the crate
// `printout_calls`.

#![tactic(auto)]

use controller::Held;

// The controller's state but for the octets of INFO, the "seconds so far", and how much of the text is filled. The line under way is
// no part of it, so that an octet within a line moves none of this.
#[derive(Clone, Copy)]
pub struct Run {
    pub state: Held,
    pub seconds: u64,
    pub used: usize,
}
