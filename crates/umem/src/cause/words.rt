// A cause's number and its words.
ghost use Rattle.std.specs.Prelude.{◌≡◌, Some};
ghost use Rattle.umem.specs.Causes.{cause_number, cause_words};

use super::Cause;
use std::fmt;

impl Cause {
    // The number that the ledger, the documents and the program use.
    pub fn number(self) -> u8
        ensures { result ≡ cause_number self }
    {
        self as u8
    }

    // The cause in plain words: a table by hand, and no trait with `Refusal`, for the reasons there.
    pub fn words(self) -> &'static str
        ensures { result.now ≡ cause_words self }
    {
        match self {
            Cause::DeviceDeaf => "lost by the device",
            Cause::NoFillFrame => "the fill ring had no frame",
            Cause::ReceiveFull => "the receive ring was full",
            Cause::ReservedDestination => "the destination is reserved",
            Cause::OwnPort => "the destination is at the port of arrival",
            Cause::NoCopyFrame => "the pool had no frame for a copy",
            Cause::SendRingFull => "the send ring was full",
        }
    }
}

// By hand: the text is promised, and a derived `Display` promises none.
impl fmt::Display for Cause {
    ghost output = { λ c. Some (cause_words c) };

    fn fmt<W: fmt::Write>(&self, f: &mut fmt::Formatter<W>) -> fmt::Result {
        f.write_str(self.words())
    }
}
