// Several entries at a time, all or none: a batch is peeked, read and released, and put back where it is left before.
ghost use Rattle.ring.specs.Rings.{Sound, StaysSound, listed, pair_of, PeekedTo, Takes, TakesInto};

use super::Ring;
use super::batches::Batch;
use umem::refusal::Refusal;

impl<'a, E: Copy> Ring<'a, E> {
    // Takes the two oldest entries out, or none where fewer wait: `?` ends the batch then, and the one that waits stays.
    pub fn pop_pair(&mut self) -> Result<(E, E), Refusal>
        ensures taken { Takes self.old 2 (listed pair_of result) self.new }
        ensures sound { StaysSound self.old self.new }
    {
        let oldest = self.consumer();
        let count = self.peek_to(2);
        let batch = Batch { ring: self, count };
        let first = batch.ring.get(oldest)?;
        let second = batch.ring.get(oldest.wrapping_add(1))?;
        batch.ring.release(2)?;
        Ok((first, second))
    }

    // Takes the oldest entries out, as many as `out` takes, or none where fewer wait: the batch is left then, before
    // anything is copied.
    pub fn pop_exact(&mut self, out: &mut [E]) -> Result<(), Refusal>
        ensures taken { TakesInto self.old out.old result out.new self.new }
        ensures sound { StaysSound self.old self.new }
    {
        if out.len() > self.size() as usize {
            return Err(Refusal::OutsideSpan);
        }
        let wanted = out.len() as u32;
        let count = self.peek_to(wanted);
        let batch = Batch { ring: self, count };
        if batch.ring.len() < wanted {
            return Err(Refusal::OutsideSpan);
        }
        batch.ring.copy_oldest(out);
        batch.ring.release(wanted)
    }

    // Peeks until so many entries are peeked, those that were before among them, or all that wait: how many more.
    fn peek_to(&mut self, wanted: u32) -> u32
        ensures sound { Sound self.old }
        ensures peeked { PeekedTo self.old wanted result self.new }
    {
        let seen = self.marks.peeked();
        let (count, _) = self.peek(wanted.saturating_sub(seen));
        count
    }
}
