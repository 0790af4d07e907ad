// How the marks of a ring begin.
ghost use Rattle.std.specs.Prelude.{◌≡◌, ℕ};
ghost use Rattle.ring.specs.Marks.{fresh_numbers};
ghost use Rattle.ring.specs.Sizes.{SizeFor};

use super::Marks;
use super::sides::Side;
use crate::sizes::size_for;

impl Marks {
    // The marks of a ring over so many entries, with nothing waiting: both begin at the start.
    pub(crate) fn new(entries: usize, start: u32) -> Marks
        ensures size { SizeFor entries result.size }
        ensures fresh { result ≡ fresh_numbers result.size start }
    {
        Marks {
            size: size_for(entries),
            producer: Side::new(start),
            consumer: Side::new(start),
        }
    }
}
