// One side of a ring, the producer's or the consumer's.
ghost use Rattle.std.specs.Prelude.{◌≡◌};
ghost use Rattle.ring.specs.Sides.{Unclaims, Passes};
ghost use Rattle.ring.specs.Wrap.{past};

use umem::refusal::Refusal;

// So many slots from the mark on are claimed: reserved at the producer's side, peeked at the consumer's.
#[derive(Clone, Copy)]
pub(super) struct Side {
    pub(super) mark: u32,
    pub(super) claimed: u32,
}

impl Side {
    // A side with nothing claimed.
    pub(super) fn new(mark: u32) -> Side
        ensures { result ≡ record { mark = mark; claimed = 0 } }
    {
        Side { mark, claimed: 0 }
    }

    // The mark behind the claimed slots.
    pub(super) fn behind(&self) -> u32
        ensures { result ≡ past self.now.mark self.now.claimed }
    {
        self.mark.wrapping_add(self.claimed)
    }

    // Claims n slots fewer: the last, as the mark stays.
    pub(super) fn unclaim(&mut self, n: u32) -> Result<(), Refusal>
        ensures { Unclaims self.old n result self.new }
    {
        if n > self.claimed {
            return Err(Refusal::OutsideSpan);
        }
        self.claimed -= n;
        Ok(())
    }

    // Moves on over the first n claimed slots.
    pub(super) fn pass(&mut self, n: u32) -> Result<(), Refusal>
        ensures { Passes self.old n result self.new }
    {
        self.unclaim(n)?;
        self.mark = self.mark.wrapping_add(n);
        Ok(())
    }
}
