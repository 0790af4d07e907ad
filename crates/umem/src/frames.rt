// Frames, their addresses, and how long a packet may be.
ghost use Rattle.std.specs.Prelude.{◌≡◌, ◌*◌, ◌↔◌, IsTrue};
ghost use Rattle.umem.specs.Frames.{address, frame_size, frame_named, FrameCount, LengthApplies, PacketLength};
ghost use Rattle.umem.specs.Refusing.{Answers};

use crate::refusal::Refusal;

// The bytes of one frame.
pub const FRAME_SIZE: usize = 2048;

// How many frames a switch may have.
pub const MAX_FRAMES: u32 = 256;

// How long a packet may be.
pub const MIN_PACKET: usize = 14;

pub const MAX_PACKET: usize = 1792;

// Whether a switch may have so many frames.
pub fn is_frame_count(frames: u32) -> bool
    ensures { IsTrue result ↔ FrameCount frames }
{
    (1..=MAX_FRAMES).contains(&frames)
}

// How many bytes the memory of so many frames has.
pub fn memory_size(frames: u32) -> usize
    ensures { result ≡ frames * frame_size }
{
    frames as usize * FRAME_SIZE
}

// The address at which a frame begins: behind the memory of those before it.
pub fn frame_start(frame: u32) -> u64
    ensures { result ≡ address frame 0 }
{
    memory_size(frame) as u64
}

// The frame that an address names.
pub fn frame_of(at: u64) -> u64
    ensures { result ≡ frame_named at }
{
    at / FRAME_SIZE as u64
}

// Refuses a length that no packet has.
pub fn check_packet_length(length: usize) -> Result<(), Refusal>
    ensures { Answers (LengthApplies length) (λ _. PacketLength length) (Unit {0}) result }
{
    if !(MIN_PACKET..=MAX_PACKET).contains(&length) {
        return Err(Refusal::WrongPacketLength);
    }
    Ok(())
}
