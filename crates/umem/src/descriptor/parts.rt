// How a descriptor is made and read.
ghost use Rattle.std.specs.Prelude.{◌≡◌};
ghost use Rattle.umem.specs.Frames.{frame_named, place_named};

use super::Descriptor;
use crate::frames::{FRAME_SIZE, frame_of};

impl Descriptor {
    pub fn new(address: u64, length: u32) -> Descriptor
        ensures address { result.address ≡ address }
        ensures length { result.length ≡ length }
        ensures options { result.options ≡ 0 }
    {
        Descriptor {
            address,
            length,
            options: 0,
        }
    }

    pub fn address(self) -> u64
        ensures { result ≡ self.address }
    {
        self.address
    }

    pub fn length(self) -> u32
        ensures { result ≡ self.length }
    {
        self.length
    }

    pub fn options(self) -> u32
        ensures { result ≡ 0 }
    {
        self.options
    }

    // The frame that the address names.
    pub fn frame(self) -> u64
        ensures { result ≡ frame_named self.address }
    {
        frame_of(self.address)
    }

    // How far behind the frame's start the address lies.
    pub fn offset(self) -> u64
        ensures { result ≡ place_named self.address }
    {
        self.address % FRAME_SIZE as u64
    }
}
