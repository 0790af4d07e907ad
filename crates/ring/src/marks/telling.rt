// What the marks tell.
ghost use Rattle.std.specs.Prelude.{◌≡◌, ◌%◌, ◌<◌, ◌≤◌, ◌↔◌, IsTrue};
ghost use Rattle.ring.specs.Marks.{waiting, free, Finds, FindsOldest};

use super::Marks;
use super::sides::Side;
use umem::refusal::Refusal;

impl Marks {
    // How many slots there are.
    pub(crate) fn size(&self) -> u32
        ensures { result ≡ self.now.size }
    {
        self.size
    }

    // The producer's mark.
    pub(crate) fn producer(&self) -> u32
        ensures { result ≡ self.now.producer }
    {
        self.producer.mark
    }

    // The consumer's mark.
    pub(crate) fn consumer(&self) -> u32
        ensures { result ≡ self.now.consumer }
    {
        self.consumer.mark
    }

    // How many entries wait.
    pub(crate) fn waiting(&self) -> u32
        ensures { result ≡ waiting self.now }
    {
        self.producer.mark.wrapping_sub(self.consumer.mark)
    }

    // How many slots may still be reserved.
    pub(crate) fn free(&self) -> u32
        ensures { result ≡ free self.now }
    {
        self.size - self.waiting() - self.producer.claimed
    }

    // Whether no slot may be reserved.
    pub(crate) fn is_full(&self) -> bool
        ensures { IsTrue result ↔ (free self.now ≡ 0) }
    {
        self.free() == 0
    }

    // How many slots are reserved.
    pub(crate) fn reserved(&self) -> u32
        ensures { result ≡ self.now.reserved }
    {
        self.producer.claimed
    }

    // How many entries were peeked.
    pub(crate) fn peeked(&self) -> u32
        ensures { result ≡ self.now.peeked }
    {
        self.consumer.claimed
    }

    // The slot of a reserved mark.
    pub(crate) fn reserved_slot(&self, mark: u32) -> Result<usize, Refusal>
        ensures { Finds self.now mark self.now.producer self.now.reserved result }
    {
        self.slot_claimed(self.producer, mark)
    }

    // The slot of a peeked mark.
    pub(crate) fn peeked_slot(&self, mark: u32) -> Result<usize, Refusal>
        ensures { Finds self.now mark self.now.consumer self.now.peeked result }
    {
        self.slot_claimed(self.consumer, mark)
    }

    // The slot of the oldest waiting entry.
    pub(crate) fn oldest_slot(&self) -> Option<usize>
        ensures { FindsOldest self.now result }
    {
        if self.waiting() == 0 {
            return None;
        }
        Some(self.slot(self.consumer.mark))
    }

    // The slot of a mark that the side claims.
    fn slot_claimed(&self, side: Side, mark: u32) -> Result<usize, Refusal>
        requires { side.claimed ≤ self.now.size }
        ensures { Finds self.now mark side.mark side.claimed result }
    {
        if mark.wrapping_sub(side.mark) >= side.claimed {
            return Err(Refusal::OutsideSpan);
        }
        Ok(self.slot(mark))
    }

    // The slot of a mark. The size is a power of two, so a mask gives the remainder.
    fn slot(&self, mark: u32) -> usize
        requires { 0 < self.now.size }
        ensures slot { result ≡ mark % self.now.size }
        ensures within { result < self.now.size }
    {
        (mark & (self.size - 1)) as usize
    }
}
