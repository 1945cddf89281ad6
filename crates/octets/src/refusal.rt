// 01, "Replies": the refusals, and their numbers.
ghost use Rattle.std.specs.Prelude.{◌≡◌};
ghost use Rattle.octets.specs.Refusals.{refusal_number};

#[derive(Clone, Copy, Debug, PartialEq, Eq)]
pub enum Refusal {
    // Of a frame, inside a call that is itself done.
    CksWrong = 1,
    ClosingWrong = 2,
    LenWrong = 3,
    // Of a call.
    InfoWrong = 4,
    FieldWrong = 5,
    StartWrong = 6,
    StateUnsound = 7,
    BookWrong = 8,
    OutputShort = 9,
    // Of a message, inside a call that is itself done.
    CodeNotHandled = 10,
    InfoLengthWrong = 11,
    OutOfRange = 12,
    NotReady = 13,
    Disagree = 14,
    // 02, E6: of an offer, and of a start.
    SenderBusy = 15,
    WaitWrong = 17,
}

// What a call tells where nothing is refused.
pub const NONE: u8 = 0;

impl Refusal {
    // "a numbered refusal"
    pub fn number(self) -> u8
        ensures { result ≡ refusal_number self }
    {
        self as u8
    }
}
