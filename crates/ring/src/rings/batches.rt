// A batch of reads: what was peeked for it and not released by its end is put back, on every way out.
ghost use Rattle.ring.specs.Rings.{Cancelled};

use super::Ring;

// The guard of a batch: `count` entries were peeked for it. Make it in place by its literal: through a
// function that makes it, the proof of what it leaves of the ring did not close.
pub(super) struct Batch<'r, 'a, E: Copy> {
    pub(super) ring: &'r mut Ring<'a, E>,
    pub(super) count: u32,
}

impl<E: Copy> Drop for Batch<'_, '_, E> {
    // What is still peeked is cancelled, as far as this batch peeked it.
    fn drop(self)
        ensures { Cancelled self.entry.ring.now self.entry.count self.exit.0.now }
    {
        let Batch { ring, count } = self;
        let left = ring.marks.peeked();
        let _ = ring.cancel(count.min(left));
    }
}
