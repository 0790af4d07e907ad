// The consumer's calls: waiting entries are peeked, read, and their slots given back.
ghost use Rattle.ring.specs.Rings.{Sound, StaysSound, Peeked, Gets, RingCancels, RingReleases};

use super::Ring;
use umem::refusal::Refusal;

impl<'a, E: Copy> Ring<'a, E> {
    // Looks at up to n waiting entries more: how many, and the mark of the first.
    pub fn peek(&mut self, n: u32) -> (u32, u32)
        ensures peeked { Peeked self.old n result self.new }
        ensures sound { StaysSound self.old self.new }
    {
        self.marks.peek(n)
    }

    // Reads the entry at a peeked mark.
    pub fn get(&self, mark: u32) -> Result<E, Refusal>
        ensures read { Gets self.now mark result }
        ensures sound { Sound self.now }
    {
        let slot = self.marks.peeked_slot(mark)?;
        Ok(self.slots[slot])
    }

    // Puts the last n peeked entries back among those to peek.
    pub fn cancel(&mut self, n: u32) -> Result<(), Refusal>
        ensures cancelled { RingCancels self.old n result self.new }
        ensures sound { StaysSound self.old self.new }
    {
        self.marks.cancel(n)
    }

    // Gives the slots of the first n peeked entries back to the producer.
    pub fn release(&mut self, n: u32) -> Result<(), Refusal>
        ensures released { RingReleases self.old n result self.new }
        ensures sound { StaysSound self.old self.new }
    {
        self.marks.release(n)
    }
}
