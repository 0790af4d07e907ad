// How a ring is made, and what it tells of itself.
ghost use Rattle.std.specs.Prelude.{◌≡◌, ◌↔◌, [], length, IsTrue};
ghost use Rattle.ring.specs.Rings.{Made, Full, Sound, queue};
ghost use Rattle.ring.specs.Runs.{EveryRun};

use super::Ring;
use crate::marks::Marks;

impl<'a, E> Ring<'a, E> {
    // An empty ring over the slots, whose marks begin at the start.
    pub fn new(slots: &'a mut [E], start: u32) -> Ring<'a, E>
        ensures made { Made slots.old start result }
        ensures sound { Sound result }
    {
        let marks = Marks::new(slots.len(), start);
        Ring { marks, slots }
    }

    // How many slots there are. What holds of every ring stands here and on each call.
    pub fn size(&self) -> u32
        ensures slots { result ≡ self.now.marks.size }
        ensures sound { Sound self.now }
    {
        self.marks.size()
    }

    // The producer's mark.
    pub fn producer(&self) -> u32
        ensures mark { result ≡ self.now.marks.producer }
        ensures sound { Sound self.now }
    {
        self.marks.producer()
    }

    // The consumer's mark.
    pub fn consumer(&self) -> u32
        ensures mark { result ≡ self.now.marks.consumer }
        ensures sound { Sound self.now }
    {
        self.marks.consumer()
    }

    // How many entries wait. Here stands what holds of every run of calls that leads to this ring: first in, first out.
    pub fn len(&self) -> u32
        ensures count { result ≡ length (queue self.now) }
        ensures sound { Sound self.now }
        ensures runs { EveryRun self.now }
    {
        self.marks.waiting()
    }

    // Whether no entry waits.
    pub fn is_empty(&self) -> bool
        ensures empty { IsTrue result ↔ (queue self.now ≡ []) }
        ensures sound { Sound self.now }
    {
        self.len() == 0
    }

    // Whether each slot has a waiting entry or is reserved.
    pub fn is_full(&self) -> bool
        ensures full { IsTrue result ↔ Full self.now }
        ensures sound { Sound self.now }
    {
        self.marks.is_full()
    }
}
