// Reading a trace file, whose records are parts of it.
ghost use Rattle.std.specs.Prelude.{◌≡◌, length, MatchResult};
ghost use Rattle.trace.specs.Files.{Follows, FoundNoTrace, Headed, IsTrace, NoEnd, Stand, Within};

use crate::layout::{MAX_RECORD, MAX_RECORDS, MIN_RECORD, Record};
use crate::pairs::Pair;
use crate::words::number_in;
use std::ops::Range;
use umem::refusal::Refusal;

// A file, and the rows of the table in it, one for each record. No model: clauses speak of the file beside the records.
#[derive(Clone, Copy)]
pub struct Trace<'a> {
    file: &'a [u8],
    rows: &'a [[u8; 8]],
    ghost headed: { Headed file.now rows.now },
    ghost standing: { Stand rows.now (length file.now) },
    ghost whole: { IsTrace file.now (length rows.now) },
}

// The records of a trace that are still to come, by their places.
#[derive(Drop)]
pub struct Records<'a> {
    trace: Trace<'a>,
    places: Range<usize>,
}

impl<'a> Trace<'a> {
    ghost use Rattle.std.specs.Option.{option_map};
    ghost use Rattle.std.specs.List.{slice_get};
    ghost use Rattle.trace.specs.Meanings.{meant, records_left, records_of};
    ghost use Rattle.trace.specs.Reading.{Reads};
    ghost use Rattle.trace.specs.Writing.{Rewrites};

    // The trace whose file these bytes are.
    pub fn read(file: &'a [u8]) -> Result<Trace<'a>, Refusal>
        ensures reads { Reads file.now result }
        ensures rewrites { Rewrites file.now result }
    {
        let rows = table_in(file)?;
        let end = end_of(rows, file.len())?;
        if end != file.len() {
            return Err(Refusal::NotATrace);
        }
        Ok(Trace { file, rows })
    }

    // How many records there are.
    pub fn count(&self) -> usize
        ensures { result ≡ length (records_of self.now) }
    {
        self.rows.len()
    }

    // Record i, where there is one: a part of the file.
    pub fn record(&self, i: usize) -> Option<Record<'a>>
        ensures { option_map meant result ≡ slice_get (records_of self.now) i }
    {
        let pair = Pair::from(*self.rows.get(i)?);
        let offset = pair.offset as usize;
        Record::parse(&self.file[offset..offset + pair.length as usize])
    }

    // All records, in their order.
    pub fn records(&self) -> Records<'a>
        ensures { records_left result ≡ records_of self.now }
    {
        Records {
            trace: *self,
            places: 0..self.count(),
        }
    }
}

impl<'a> Iterator for Records<'a> {
    ghost use Rattle.std.specs.Iterator.{item_count, YieldsFirstBy};
    ghost use Rattle.trace.specs.Meanings.{meant, records_left};

    type Item = Record<'a>;

    ghost next_gives = { YieldsFirstBy meant records_left };

    ghost remaining = { item_count records_left };

    fn next(&mut self) -> Option<Record<'a>> {
        let i = self.places.next()?;
        self.trace.record(i)
    }
}

// The table of a file: as many rows as the file says that it has records.
fn table_in(file: &[u8]) -> Result<&[[u8; 8]], Refusal>
    ensures { MatchResult result (λ rows. Headed file.now rows.now) (FoundNoTrace file.now) }
{
    let Some((count, rest)) = file.split_first_chunk() else {
        return Err(Refusal::NotATrace);
    };
    let count = number_in(*count) as usize;
    let (rows, _) = rest.as_chunks();
    if count > MAX_RECORDS || count > rows.len() {
        return Err(Refusal::NotATrace);
    }
    Ok(&rows[..count])
}

// Where the last record ends, if each begins where its forerunner ended and lies in a file of this size.
fn end_of(rows: &[[u8; 8]], size: usize) -> Result<usize, Refusal>
    ensures { MatchResult result (Stand rows.now) (NoEnd (Within size (Stand rows.now))) }
{
    let mut end = 4 + 8 * rows.len();
    for row in rows {
        end = next_end(Pair::from(*row), end, size)?;
    }
    Ok(end)
}

// Where the record of a pair ends, if it begins at this place, where its forerunner ended, and lies in a file of this
// size: so that a file that is cut short is refused at the first record that it lacks.
fn next_end(pair: Pair, place: usize, size: usize) -> Result<usize, Refusal>
    ensures { MatchResult result (Within size (Follows pair place)) (NoEnd (Within size (Follows pair place))) }
{
    let length = pair.length as usize;
    if pair.offset as usize != place
        || !(MIN_RECORD..=MAX_RECORD).contains(&length)
        || place + length > size
    {
        return Err(Refusal::NotATrace);
    }
    Ok(place + length)
}
