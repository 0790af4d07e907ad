// The marks and counts of a ring, with what always holds of them.
use sides::Side;
use std::marker::Model;

mod made;
mod sides;
mod steps;
mod telling;

// The producer claims the slots that are reserved, the consumer those whose entries are being read.
#[derive(Clone, Copy)]
pub struct Marks {
    size: u32,
    producer: Side,
    consumer: Side,
}

impl Model for Marks {
    ghost use Rattle.ring.specs.Marks.{Numbers, SoundMarks};

    ghost Value = { Numbers };

    ghost use Rattle.ring.specs.Views.{numbers};

    ghost view = { numbers };

    ghost invariant = { λ m. SoundMarks (numbers m) };

    ghost inverse = { λ n. record {
      size = n.size;
      producer = record { mark = n.producer; claimed = n.reserved };
      consumer = record { mark = n.consumer; claimed = n.peeked };
    } };
}
