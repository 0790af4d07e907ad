// One entry at a time.
ghost use Rattle.ring.specs.Rings.{StaysSound, Pushes, Pops, Takes, one_of};

use super::Ring;
use umem::refusal::Refusal;

impl<'a, E: Copy> Ring<'a, E> {
    // Adds one entry to those that wait. Refused where no slot is free, or where any is reserved: the entry would have to
    // pass those that are still being written.
    pub fn push(&mut self, entry: E) -> Result<(), Refusal>
        ensures pushed { Pushes self.old entry result self.new }
        ensures sound { StaysSound self.old self.new }
    {
        if self.marks.reserved() > 0 {
            return Err(Refusal::OutsideSpan);
        }
        let (count, first) = self.reserve(1);
        if count == 0 {
            return Err(Refusal::OutsideSpan);
        }
        self.put(first, entry)?;
        self.submit(1)
    }

    // Takes the oldest entry out, whether it was peeked or not. It counts as the taking of one.
    pub fn pop(&mut self) -> Option<E>
        ensures popped { Pops self.old result self.new }
        ensures one { Takes self.old 1 (one_of result) self.new }
        ensures sound { StaysSound self.old self.new }
    {
        let slot = self.marks.oldest_slot()?;
        let oldest = self.slots[slot];
        let _ = self.marks.consume(1);
        Some(oldest)
    }
}
