// Entries that name a frame, and how many of those that wait name one.
ghost use Rattle.std.specs.Prelude.{◌≡◌, ℕ, count_by, nat_eq};
ghost use Rattle.umem.specs.Frames.{frame_named};
ghost use Rattle.ring.specs.Rings.{queue, Sound};

use crate::rings::Ring;
use umem::descriptor::Descriptor;
use umem::frames::frame_of;

// An entry that names a frame. A ring carries any plain entry; only the question below asks for such ones.
pub trait NamesFrame: Copy {
    ghost names: { Self → ℕ };

    fn named_frame(&self) -> u64
        ensures { result ≡ names self.now };
}

// An address, the entry of fill and completion rings.
impl NamesFrame for u64 {
    ghost names = { frame_named };

    fn named_frame(&self) -> u64 {
        frame_of(*self)
    }
}

// A descriptor, the entry of receive and send rings.
impl NamesFrame for Descriptor {
    ghost names = { λ d. frame_named d.address };

    fn named_frame(&self) -> u64 {
        self.frame()
    }
}

impl<'a, E: NamesFrame> Ring<'a, E> {
    // How many waiting entries name the frame, peeked ones too.
    pub fn count_naming(&self, frame: u64) -> u32
        ensures count { result ≡ count_by (λ e. nat_eq (E.NamesFrame.names e) frame) (queue self.now) }
        ensures sound { Sound self.now }
    {
        let (front, back) = self.waiting_parts();
        (count_in(front, frame) + count_in(back, frame)) as u32
    }
}

// How many of the entries name the frame. Each part is counted by itself: a chain asks at every entry which part is on.
fn count_in<E: NamesFrame>(entries: &[E], frame: u64) -> usize
    ensures { result ≡ count_by (λ e. nat_eq (E.NamesFrame.names e) frame) entries.now }
{
    entries
        .iter()
        .filter(|entry| entry.named_frame() == frame)
        .count()
}
