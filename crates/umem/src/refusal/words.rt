// A refusal's number and its words.
ghost use Rattle.std.specs.Prelude.{◌≡◌, Some};
ghost use Rattle.umem.specs.Refusals.{number, refusal_words};

use super::Refusal;
use std::fmt;

impl Refusal {
    // The number that the documents and the program use.
    pub fn number(self) -> u8
        ensures { result ≡ number self }
    {
        self as u8
    }

    // The refusal in plain words: a table by hand, since a derive would promise none of its texts. No trait joins these calls
    // with those of `Cause`: nothing is generic over the two, so it would say them once more.
    pub fn words(self) -> &'static str
        ensures { result.now ≡ refusal_words self }
    {
        match self {
            Refusal::NoSuchPort => "there is no such port",
            Refusal::WrongMemorySize => "the frame memory is not 2048 bytes for each frame",
            Refusal::WrongPacketLength => "a packet has 14 to 1792 bytes",
            Refusal::HandleNotOut => "the switch has no such handle out",
            Refusal::UnfitSetup =>
                "the number of frames, the number of ports or a port's number of frames does not fit",
            Refusal::PortNotFresh => "a port holds something or has a ring of size 0",
            Refusal::PoolEmpty => "the pool has no frame",
            Refusal::FillFull => "the fill ring is full",
            Refusal::SendFull => "the send ring is full",
            Refusal::NothingReceived => "nothing was received",
            Refusal::NothingToSend => "there is nothing to send",
            Refusal::NothingCompleted => "no frame has completed",
            Refusal::LogFull => "the log has no room for another record",
            Refusal::Stuck => "the device is stuck",
            Refusal::CompletionFull => "the completion ring is full",
            Refusal::OutsideSpan => "the mark or count lies outside its span",
            Refusal::NotATrace => "this is not a trace file",
            Refusal::UnfitEntry => "the frame, offset or length does not fit the frame memory",
            Refusal::ShortBuffer => "the buffer is too short",
        }
    }
}

// By hand: the text is promised, and a derived `Display` promises none.
impl fmt::Display for Refusal {
    ghost output = { λ e. Some (refusal_words e) };

    fn fmt<W: fmt::Write>(&self, f: &mut fmt::Formatter<W>) -> fmt::Result {
        f.write_str(self.words())
    }
}
