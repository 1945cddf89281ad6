// 02, E4: "A sound message frame whose SEQ and INFO both equal those of the last one accepted .. is a repeat". INFO of a frame stands in the first
// octets kept, and that of the last one accepted behind these: the next frame overwrites the first as it arrives, and may be refused half-way.
ghost use Rattle.std.specs.Prelude.{◌≡◌, ◌≤◌, true, length, take};
ghost use Rattle.controller.specs.State.{kept_len};
ghost use Rattle.controller.specs.Memory.{joined_memory, last_fits, is_repeat};
ghost use Rattle.controller_calls.specs.Memory.{Remembered};

use crate::incoming::Incoming;
use controller::Last;
use frame::INFO_MOST;
use frame_calls::INFO_LEAST;

// Does it remember none, or INFO of a length that a frame can have?
pub(crate) fn last_stands(l: Last) -> bool
    ensures { result ≡ last_fits l }
{
    let n = l.len as usize;
    n == 0 || (INFO_LEAST <= n && n <= INFO_MOST)
}

// Is the frame a repeat? The address is not compared.
pub(crate) fn is_repeat(last: Last, m: Incoming, kept: &[u8]) -> bool
    requires { (last_fits last ≡ true) × (kept_len ≤ length kept.now) }
    ensures { result ≡ is_repeat (joined_memory last kept.now) m.seq (take m.len kept.now) }
{
    if m.seq != last.seq {
        return false;
    }
    if m.len != last.len {
        return false;
    }
    let end = m.len as usize;
    octets::same(&kept[..end], &kept[INFO_MOST..INFO_MOST + end])
}

// The frame is accepted: its INFO is kept behind those of the decoder.
pub(crate) fn remember(m: Incoming, kept: &mut [u8]) -> Last
    requires { kept_len ≤ length kept.old }
    ensures { Remembered m.seq m.len kept.old result kept.new }
{
    kept.copy_within(..m.len as usize, INFO_MOST);
    Last {
        seq: m.seq,
        len: m.len,
    }
}
