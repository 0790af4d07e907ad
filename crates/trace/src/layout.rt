// A record and its bytes: one byte for the port, then the packet.
ghost use Rattle.std.specs.Prelude.{◌≡◌, ◌+◌, ◌≤◌, length, MatchOption};
ghost use Rattle.model.specs.Traces.{laid};
ghost use Rattle.umem.specs.Frames.{written};
ghost use Rattle.trace.specs.Meanings.{meant};

use crate::words::put;
use umem::frames::{MAX_PACKET, MIN_PACKET};

// How many bytes a record has: the port byte, and a packet of 14 to 1,792 bytes.
pub const MIN_RECORD: usize = MIN_PACKET + 1;

pub const MAX_RECORD: usize = MAX_PACKET + 1;

// How many records a trace may have.
pub const MAX_RECORDS: usize = 1024;

// A record, where it stands.
#[derive(Clone, Copy, PartialEq, Eq, Debug)]
pub struct Record<'a> {
    pub port: u8,
    pub packet: &'a [u8],
}

impl<'a> Record<'a> {
    // The record that is laid out as these bytes; none where there is no byte for the port.
    pub fn parse(bytes: &'a [u8]) -> Option<Record<'a>>
        ensures { MatchOption result (length bytes.now ≡ 0) (λ v. laid (meant v) ≡ bytes.now) }
    {
        match bytes {
            [port, packet @ ..] => Some(Record {
                port: *port,
                packet,
            }),
            [] => None,
        }
    }

    // How many bytes the record is laid out in.
    pub fn size(self) -> usize
        ensures { result ≡ length (laid (meant self.entry)) }
    {
        self.packet.len() + 1
    }

    // Lays the record out from a place on.
    pub(crate) fn put(self, buffer: &mut [u8], at: usize)
        requires { at + length (laid (meant self)) ≤ length buffer.old }
        ensures { buffer.new ≡ written buffer.old at (laid (meant self.entry)) }
    {
        put(buffer, at, &[self.port]);
        put(buffer, at + 1, self.packet);
    }
}
