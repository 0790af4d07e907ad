// The worked values of trace files, and files that are none.
use crate::layout::Record;
use crate::pairs::Pair;
use crate::recording::Recording;
use crate::traces::Trace;
use std::alloc::Global;
use std::test::Fail;
use umem::refusal::Refusal;

const NO_PAIR: Pair = Pair {
    offset: 0,
    length: 0,
};

// What reading answers: the number of records, or the refusal.
fn counted(file: &[u8]) -> Result<usize, Refusal> {
    Ok(Trace::read(file)?.count())
}

// A file of `count` records of `length` bytes each, right but for these two numbers.
fn uniform(heap: Global, count: u32, length: u32) -> Result<Vec<u8>, Fail> {
    let mut file = Vec::new(heap);
    file.extend_from_slice(&count.to_le_bytes())?;
    let mut offset = count.wrapping_mul(8).wrapping_add(4);
    for _ in 0..count {
        file.extend_from_slice(&offset.to_le_bytes())?;
        file.extend_from_slice(&length.to_le_bytes())?;
        offset = offset.wrapping_add(length);
    }
    for _ in 0..count.wrapping_mul(length) {
        file.push(7)?;
    }
    Ok(file)
}

// The file with another number at a place.
fn patched(heap: Global, file: &[u8], at: usize, number: u32) -> Result<Vec<u8>, Fail> {
    let word = number.to_le_bytes();
    let mut other = Vec::new(heap);
    for (i, byte) in file.iter().enumerate() {
        if i >= at && i - at < 4 {
            other.push(word[i - at])?;
        } else {
            other.push(*byte)?;
        }
    }
    Ok(other)
}

#[test]
fn no_records(rt: HostRuntime) {
    assert_eq!(rt; counted(&[0, 0, 0, 0]), Ok(0));
    assert_eq!(rt; counted(&[0, 0, 0, 0, 0]), Err(Refusal::NotATrace));
    assert_eq!(rt; counted(&[]), Err(Refusal::NotATrace));
}

#[test]
fn rows_and_pairs(rt: HostRuntime) {
    let pair = Pair {
        offset: 12,
        length: 15,
    };
    let row = [12, 0, 0, 0, 15, 0, 0, 0];
    assert!(rt; <[u8; 8]>::from(pair) == row);
    assert_eq!(rt; Pair::from(row), pair);
}

#[test]
fn one_record(rt: HostRuntime) -> Result<(), Fail> {
    let packet = [1, 2, 3, 4, 5, 6, 7, 8, 9, 10, 11, 12, 13, 14];
    let mut table = [NO_PAIR; 1];
    let mut area = [0; 1793];
    let mut buffer = [255; 30];
    let mut recording = Recording::new(&mut table, &mut area);
    recording.push(Record {
        port: 5,
        packet: &packet,
    })?;
    assert_eq!(rt; recording.write(&mut buffer), Ok(27));
    let front = [1, 0, 0, 0, 12, 0, 0, 0, 15, 0, 0, 0, 5, 1, 2];
    assert_eq!(rt; &buffer[0..15], &front[0..15]);
    let back = [13, 14, 255, 255, 255];
    assert_eq!(rt; &buffer[25..30], &back[0..5]);
    let trace = Trace::read(&buffer[0..27])?;
    assert_eq!(rt; trace.count(), 1);
    let record = Record {
        port: 5,
        packet: &packet,
    };
    assert_eq!(rt; trace.record(0), Some(record));
    assert_eq!(rt; trace.record(1), None);
    Ok(())
}

// Three packets come back in the order in which they were added.
#[test]
fn records_in_order(rt: HostRuntime) -> Result<(), Fail> {
    let packets = [[1; 14], [2; 14], [3; 14]];
    let mut table = [NO_PAIR; 3];
    let mut area = [0; 1823];
    let mut buffer = [0; 73];
    let mut recording = Recording::new(&mut table, &mut area);
    for (port, packet) in packets.iter().enumerate() {
        recording.push(Record {
            port: port as u8,
            packet,
        })?;
    }
    assert_eq!(rt; recording.write(&mut buffer), Ok(73));
    let trace = Trace::read(&buffer)?;
    for (n, record) in trace.records().enumerate() {
        assert_eq!(rt; trace.record(n), Some(record));
        assert_eq!(rt; record.port as usize, n);
    }
    assert_eq!(rt; trace.records().count(), 3);
    Ok(())
}

#[test]
fn short_buffers(rt: HostRuntime) -> Result<(), Fail> {
    let packet = [9; 14];
    let mut table = [NO_PAIR; 1];
    let mut area = [0; 1793];
    let mut recording = Recording::new(&mut table, &mut area);
    let item = Record {
        port: 0,
        packet: &packet,
    };
    recording.push(item)?;
    let mut short = [255; 26];
    assert_eq!(rt; recording.write(&mut short), Err(Refusal::ShortBuffer));
    assert!(rt; short == [255; 26]);
    let mut exact = [255; 27];
    assert_eq!(rt; recording.write(&mut exact), Ok(27));
    Ok(())
}

#[test]
fn recordings_refuse(rt: HostRuntime) {
    let bytes = [9; 1793];
    let mut table = [NO_PAIR; 2];
    let mut area = [0; 1807];
    let mut recording = Recording::new(&mut table, &mut area);
    for (length, answer) in [
        (13, Err(Refusal::WrongPacketLength)),
        (1793, Err(Refusal::WrongPacketLength)),
        (14, Ok(())),
        (13, Err(Refusal::WrongPacketLength)),
        (14, Err(Refusal::LogFull)),
    ] {
        if length <= 1793 {
            let item = Record {
                port: 1,
                packet: &bytes[0..length],
            };
            assert_eq!(rt; recording.push(item), answer);
        }
    }
    assert_eq!(rt; recording.count(), 1);
}

#[test]
fn lengths_and_counts(rt: HostRuntime) -> Result<(), Fail> {
    let heap = rt.alloc();
    for (count, length, answer) in [
        (1, 14, Err(Refusal::NotATrace)),
        (1, 15, Ok(1)),
        (1, 1793, Ok(1)),
        (1, 1794, Err(Refusal::NotATrace)),
        (1024, 15, Ok(1024)),
        (1025, 15, Err(Refusal::NotATrace)),
    ] {
        let file = uniform(heap, count, length)?;
        assert_eq!(rt; counted(file.as_slice()), answer);
    }
    Ok(())
}

#[test]
fn cut_at_every_byte(rt: HostRuntime) -> Result<(), Fail> {
    let file = uniform(rt.alloc(), 3, 16)?;
    let whole = file.as_slice();
    assert_eq!(rt; counted(whole), Ok(3));
    for n in 0..whole.len() {
        assert_eq!(rt; counted(&whole[0..n]), Err(Refusal::NotATrace));
    }
    Ok(())
}

// In a file of two records of 16 bytes the pairs stand at 4 and 12, and the records begin at 20 and 36.
#[test]
fn broken_tables(rt: HostRuntime) -> Result<(), Fail> {
    let heap = rt.alloc();
    let file = uniform(heap, 2, 16)?;
    assert_eq!(rt; counted(file.as_slice()), Ok(2));
    for (at, number) in [
        (0, 0),
        (0, 1),
        (0, 3),
        (0, 1025),
        (0, u32::MAX),
        (4, 0),
        (4, 4),
        (4, 19),
        (4, 21),
        (4, u32::MAX),
        (8, 15),
        (8, 17),
        (8, 4294967292),
        (12, 20),
        (12, 35),
        (12, 37),
        (12, 4),
        (16, 15),
        (16, 17),
        (16, u32::MAX),
    ] {
        let other = patched(heap, file.as_slice(), at, number)?;
        assert_eq!(rt; counted(other.as_slice()), Err(Refusal::NotATrace));
    }
    let mut longer = patched(heap, file.as_slice(), 0, 2)?;
    assert_eq!(rt; counted(longer.as_slice()), Ok(2));
    longer.push(7)?;
    assert_eq!(rt; counted(longer.as_slice()), Err(Refusal::NotATrace));
    Ok(())
}
