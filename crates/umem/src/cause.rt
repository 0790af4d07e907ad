// Why a packet is lost.
pub mod words;

// The number of each case is fixed by `cause_number` in specs/Causes.antt.
#[derive(Clone, Copy, PartialEq, Eq, Debug)]
pub enum Cause {
    DeviceDeaf = 1,
    NoFillFrame = 2,
    ReceiveFull = 3,
    ReservedDestination = 4,
    OwnPort = 5,
    NoCopyFrame = 6,
    SendRingFull = 7,
}
