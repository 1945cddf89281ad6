// The word of an action: the whole of it counts.

// For the decoder and the writers.
#[derive(Clone, Copy)]
pub(crate) enum FrameWord {
    Read,
    Idle,
    Unsound,
    Dropped,
    Place,
    Message,
    Ack,
    Nak,
    Compose,
    Output,
}

// For the controller.
#[derive(Clone, Copy)]
pub(crate) enum CallWord {
    Fresh,
    Earlier,
    Take,
    Send,
    Broadcast,
    Keep,
    Offer,
    Wait,
    Quiet,
    Lend,
}

#[derive(Clone, Copy)]
pub(crate) enum Word {
    Frame(FrameWord),
    Call(CallWord),
}

pub(crate) fn find(s: &[u8]) -> Option<Word> {
    match s {
        b"read" => Some(Word::Frame(FrameWord::Read)),
        b"idle" => Some(Word::Frame(FrameWord::Idle)),
        b"unsound" => Some(Word::Frame(FrameWord::Unsound)),
        b"dropped" => Some(Word::Frame(FrameWord::Dropped)),
        b"place" => Some(Word::Frame(FrameWord::Place)),
        b"message" => Some(Word::Frame(FrameWord::Message)),
        b"ack" => Some(Word::Frame(FrameWord::Ack)),
        b"nak" => Some(Word::Frame(FrameWord::Nak)),
        b"compose" => Some(Word::Frame(FrameWord::Compose)),
        b"output" => Some(Word::Frame(FrameWord::Output)),
        b"fresh" => Some(Word::Call(CallWord::Fresh)),
        b"earlier" => Some(Word::Call(CallWord::Earlier)),
        b"take" => Some(Word::Call(CallWord::Take)),
        b"send" => Some(Word::Call(CallWord::Send)),
        b"broadcast" => Some(Word::Call(CallWord::Broadcast)),
        b"keep" => Some(Word::Call(CallWord::Keep)),
        b"offer" => Some(Word::Call(CallWord::Offer)),
        b"wait" => Some(Word::Call(CallWord::Wait)),
        b"quiet" => Some(Word::Call(CallWord::Quiet)),
        b"lend" => Some(Word::Call(CallWord::Lend)),
        _ => None,
    }
}
