// Why a call is not served.
pub mod words;

// The number of each case is fixed by `number` in specs/Refusals.antt.
#[derive(Clone, Copy, PartialEq, Eq, Debug)]
pub enum Refusal {
    NoSuchPort = 1,
    WrongMemorySize = 2,
    WrongPacketLength = 3,
    HandleNotOut = 4,
    UnfitSetup = 5,
    PortNotFresh = 6,
    PoolEmpty = 7,
    FillFull = 8,
    SendFull = 9,
    NothingReceived = 10,
    NothingToSend = 11,
    NothingCompleted = 12,
    LogFull = 13,
    Stuck = 14,
    CompletionFull = 15,
    OutsideSpan = 16,
    NotATrace = 17,
    UnfitEntry = 19,
    ShortBuffer = 20,
}
