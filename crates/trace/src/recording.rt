// Records that a caller collects in memory of its own, to write them as a trace.
ghost use Rattle.std.specs.Prelude.{◌*◌, ◌≤◌, length, take};
ghost use Rattle.model.specs.Traces.{longest_record};
ghost use Rattle.trace.specs.Pairs.{Gapless, Sized};

use crate::layout::{MAX_RECORD, MAX_RECORDS, Record};
use crate::pairs::Pair;
use crate::writing::write_file;
use umem::frames::check_packet_length;
use umem::refusal::Refusal;

// At most 1,024 pairs are in use. They lie in the table, follow one another with no gap, are as long as records are, and
// name all bytes in use. How much is in use is counted beside each slice, since the caller lends the memory and nothing is
// allocated. No model: clauses speak of the pairs and bytes beside the records.
#[derive(Drop)]
pub struct Recording<'a> {
    table: &'a mut [Pair],
    area: &'a mut [u8],
    count: usize,
    used: usize,
    ghost few: { count ≤ 1024 },
    ghost short: { used ≤ count * longest_record },
    ghost listed: { count ≤ length table.now },
    ghost inside: { used ≤ length area.now },
    ghost gapless: { Gapless 0 (take count table.now) used },
    ghost sized: { Sized (take count table.now) },
}

impl<'a> Recording<'a> {
    ghost use Rattle.std.specs.Prelude.{◌≡◌, []};
    ghost use Rattle.trace.specs.Meanings.{meant};
    ghost use Rattle.trace.specs.Recordings.{held_records, RecordsAdded};
    ghost use Rattle.trace.specs.Writing.{Writes, ReadsBack};

    // An empty recording: a record takes one pair of the table, and its bytes of the area.
    pub fn new(table: &'a mut [Pair], area: &'a mut [u8]) -> Recording<'a>
        ensures empty { held_records result ≡ [] }
        ensures memory { (result.table.now ≡ table.old) × (result.area.now ≡ area.old) }
    {
        Recording {
            table,
            area,
            count: 0,
            used: 0,
        }
    }

    // Adds a record behind the others.
    pub fn push(&mut self, item: Record) -> Result<(), Refusal>
        ensures { RecordsAdded self.old self.new (meant item.entry) result }
    {
        check_packet_length(item.packet.len())?;
        let count = self.count;
        let used = self.used;
        if count >= MAX_RECORDS
            || count >= self.table.len()
            || self.area.len() < used + MAX_RECORD
        {
            return Err(Refusal::LogFull);
        }
        let length = item.size();
        item.put(self.area, used);
        self.table[count] = Pair {
            offset: used as u32,
            length: length as u32,
        };
        (self.count, self.used) = (count + 1, used + length);
        Ok(())
    }

    // How many records there are.
    pub fn count(&self) -> usize
        ensures { result ≡ length (held_records self.now) }
    {
        self.count
    }

    // Writes the records as a trace file at the buffer's start.
    pub fn write(&self, buffer: &mut [u8]) -> Result<usize, Refusal>
        ensures writes { Writes (held_records self.now) buffer.old buffer.new result }
        ensures reads_back { ReadsBack (held_records self.now) buffer.new result }
    {
        write_file(&self.table[..self.count], &self.area[..self.used], buffer)
    }
}
