// The producer's calls: slots are reserved, entries put, and handed over to the consumer.
ghost use Rattle.std.specs.Prelude.{◌≡◌};
ghost use Rattle.ring.specs.Rings.{StaysSound, Reserved, Puts, RingSubmits, RingWithdraws};

use super::Ring;
use umem::refusal::Refusal;

impl<'a, E: Copy> Ring<'a, E> {
    // Reserves n slots, all or none: how many, and the mark of the first, which the rules tell where nothing is reserved,
    // too: so it is no `Option`.
    pub fn reserve(&mut self, n: u32) -> (u32, u32)
        ensures reserved { Reserved self.old n result self.new }
        ensures sound { StaysSound self.old self.new }
    {
        self.marks.reserve(n)
    }

    // Writes an entry at a reserved mark.
    pub fn put(&mut self, mark: u32, entry: E) -> Result<(), Refusal>
        ensures written { Puts self.old mark entry result self.new }
        ensures sound { StaysSound self.old self.new }
    {
        let slot = self.marks.reserved_slot(mark)?;
        self.slots[slot] = entry;
        Ok(())
    }

    // Hands the first n reserved entries over to the consumer.
    pub fn submit(&mut self, n: u32) -> Result<(), Refusal>
        ensures submitted { RingSubmits self.old n result self.new }
        ensures sound { StaysSound self.old self.new }
    {
        self.marks.submit(n)
    }

    // Gives back the last n slots that are reserved.
    pub fn withdraw(&mut self, n: u32) -> Result<(), Refusal>
        ensures withdrawn { RingWithdraws self.old n result self.new }
        ensures sound { StaysSound self.old self.new }
    {
        self.marks.withdraw(n)
    }
}
