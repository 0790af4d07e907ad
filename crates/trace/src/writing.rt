// Writing the trace file of records that are held as pairs and bytes.
ghost use Rattle.std.specs.Prelude.{◌≡◌, ◌+◌, ◌*◌, ◌^◌, ◌<◌, ◌≤◌, length};
ghost use Rattle.std.specs.List.{All};
ghost use Rattle.umem.specs.Frames.{written};
ghost use Rattle.trace.specs.Pairs.{cut_records, rows, Listed};
ghost use Rattle.trace.specs.Writing.{Writes};

use crate::pairs::Pair;
use crate::words::{put, word_of};
use umem::refusal::Refusal;

// Puts the file of the records at the buffer's start. The pairs name all of `bytes`, one behind another.
pub(crate) fn write_file(pairs: &[Pair], bytes: &[u8], buffer: &mut [u8]) -> Result<usize, Refusal>
    requires { Listed pairs.now bytes.now }
    ensures { Writes (cut_records bytes.now pairs.now) buffer.old buffer.new result }
{
    let first = 4 + 8 * pairs.len();
    let size = first + bytes.len();
    if buffer.len() < size {
        return Err(Refusal::ShortBuffer);
    }
    put(buffer, 0, &word_of(pairs.len() as u32));
    put_table(pairs, buffer);
    put(buffer, first, bytes);
    Ok(size)
}

// Writes the table behind the count: where each record begins in the file, and how long it is.
fn put_table(pairs: &[Pair], buffer: &mut [u8])
    requires few { length pairs.now ≤ 1024 }
    requires small { All (λ p. p.offset < 2 ^ 31) pairs.now }
    requires room { 4 + 8 * length pairs.now ≤ length buffer.old }
    ensures { buffer.new ≡ written buffer.old 4 (rows (4 + 8 * length pairs.now) pairs.now) }
{
    let first = (4 + 8 * pairs.len()) as u32;
    // By place: of the rows that `as_chunks_mut` lends, no contract says what the buffer holds after them.
    for (i, pair) in pairs.iter().enumerate() {
        let placed = Pair {
            offset: first + pair.offset,
            length: pair.length,
        };
        put(buffer, 4 + 8 * i, &<[u8; 8]>::from(placed));
    }
}
