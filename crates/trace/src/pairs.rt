// Where records stand among bytes.
ghost use Rattle.trace.specs.Pairs.{IsRow};

use crate::words::{number_in, word_of};

// Where a record begins, and how long it is.
#[derive(Clone, Copy, PartialEq, Eq, Debug)]
pub struct Pair {
    pub offset: u32,
    pub length: u32,
}

// The pair that a row of a table says.
impl From<[u8; 8]> for Pair {
    ghost from_gives = { IsRow };

    fn from(row: [u8; 8]) -> Pair {
        let [a, b, c, d, e, f, g, h] = row;
        Pair {
            offset: number_in([a, b, c, d]),
            length: number_in([e, f, g, h]),
        }
    }
}

// A pair as a row of a table.
impl From<Pair> for [u8; 8] {
    ghost from_gives = { λ pair row. IsRow row pair };

    fn from(pair: Pair) -> [u8; 8] {
        let [a, b, c, d] = word_of(pair.offset);
        let [e, f, g, h] = word_of(pair.length);
        [a, b, c, d, e, f, g, h]
    }
}
