// The steps that move the marks. Each call names its side here, since callers see numbers and are lent no side.
ghost use Rattle.ring.specs.Marks.{Reserves, Withdraws, Submits, Peeks, Cancels, Releases, Consumes};

use super::Marks;
use umem::refusal::Refusal;

impl Marks {
    // Reserves n slots, all or none: how many, and the mark of the first. A pair and no `Option`, since the rules tell the
    // mark where nothing is reserved, too.
    pub(crate) fn reserve(&mut self, n: u32) -> (u32, u32)
        ensures { Reserves self.old n result self.new }
    {
        let first = self.producer.behind();
        if n > self.free() {
            return (0, first);
        }
        self.producer.claimed += n;
        (n, first)
    }

    // Gives back the last n slots that are reserved.
    pub(crate) fn withdraw(&mut self, n: u32) -> Result<(), Refusal>
        ensures { Withdraws self.old n result self.new }
    {
        self.producer.unclaim(n)
    }

    // Hands the first n reserved slots over to the consumer.
    pub(crate) fn submit(&mut self, n: u32) -> Result<(), Refusal>
        ensures { Submits self.old n result self.new }
    {
        self.producer.pass(n)
    }

    // Looks at up to n waiting entries more: how many, and the mark of the first.
    pub(crate) fn peek(&mut self, n: u32) -> (u32, u32)
        ensures { Peeks self.old n result self.new }
    {
        let first = self.consumer.behind();
        let count = n.min(self.waiting() - self.consumer.claimed);
        self.consumer.claimed += count;
        (count, first)
    }

    // Puts the last n peeked entries back among those to peek.
    pub(crate) fn cancel(&mut self, n: u32) -> Result<(), Refusal>
        ensures { Cancels self.old n result self.new }
    {
        self.consumer.unclaim(n)
    }

    // Gives the slots of the first n peeked entries back to the producer.
    pub(crate) fn release(&mut self, n: u32) -> Result<(), Refusal>
        ensures { Releases self.old n result self.new }
    {
        self.consumer.pass(n)
    }

    // Gives the slots of the n oldest entries back to the producer, whether they were peeked or not.
    pub(crate) fn consume(&mut self, n: u32) -> Result<(), Refusal>
        ensures { Consumes self.old n result self.new }
    {
        if n > self.waiting() {
            return Err(Refusal::OutsideSpan);
        }
        self.consumer.mark = self.consumer.mark.wrapping_add(n);
        self.consumer.claimed = self.consumer.claimed.saturating_sub(n);
        Ok(())
    }
}
