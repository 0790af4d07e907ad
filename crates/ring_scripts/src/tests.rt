// The worked values of rings, marks that wrap, what is refused, and batches that are left early.
use crate::{Answer, Call, perform, session};
use ring::{Ring, size_for};
use std::collections::VecDeque;
use std::process::Abort;
use std::test::Fail;
use umem::descriptor::Descriptor;
use umem::refusal::Refusal;

// What a call answers.
type Answered = Result<Answer<u64>, Refusal>;

const OUTSIDE: Answered = Err(Refusal::OutsideSpan);

// Makes the calls on a new ring, and compares each answer.
fn answers(rt: &impl Abort, slots: &mut [u64], start: u32, script: &[(Call<u64>, Answered)]) {
    let mut ring = Ring::new(slots, start);
    for (call, answer) in script {
        assert_eq!(rt; perform(&mut ring, *call), *answer);
    }
}

#[test]
fn sizes(rt: HostRuntime) {
    for (entries, size) in [
        (0, 0),
        (1, 0),
        (2, 2),
        (3, 2),
        (4, 4),
        (7, 4),
        (255, 128),
        (256, 256),
        (300, 256),
        (usize::MAX, 256),
    ] {
        assert_eq!(rt; size_for(entries), size);
    }
}

// Size 4, and marks that wrap between the second entry and the third. Reserving none tells P + r, peeking none C + k.
#[test]
fn worked_values(rt: HostRuntime) {
    let mut slots = [0; 7];
    answers(
        &rt,
        &mut slots,
        4294967294,
        &[
            (Call::Reserve(3), Ok(Answer::Span(3, 4294967294))),
            (Call::Put(4294967294, 10), Ok(Answer::Done)),
            (Call::Put(4294967295, 11), Ok(Answer::Done)),
            (Call::Put(0, 12), Ok(Answer::Done)),
            (Call::Put(1, 13), OUTSIDE),
            (Call::Submit(3), Ok(Answer::Done)),
            (Call::Reserve(0), Ok(Answer::Span(0, 1))),
            (Call::Reserve(2), Ok(Answer::Span(0, 1))),
            (Call::Peek(5), Ok(Answer::Span(3, 4294967294))),
            (Call::Get(4294967295), Ok(Answer::Entry(11))),
            (Call::Get(0), Ok(Answer::Entry(12))),
            (Call::Release(2), Ok(Answer::Done)),
            (Call::Cancel(1), Ok(Answer::Done)),
            (Call::Peek(0), Ok(Answer::Span(0, 0))),
            (Call::Get(4294967295), OUTSIDE),
            (Call::Pop, Ok(Answer::Popped(Some(12)))),
            (Call::Pop, Ok(Answer::Popped(None))),
        ],
    );
}

// Fewer than two entries: always full and always empty.
#[test]
fn size_none(rt: HostRuntime) {
    let mut slots = [7; 1];
    answers(
        &rt,
        &mut slots,
        5,
        &[
            (Call::Reserve(0), Ok(Answer::Span(0, 5))),
            (Call::Reserve(1), Ok(Answer::Span(0, 5))),
            (Call::Peek(1), Ok(Answer::Span(0, 5))),
            (Call::Push(1), OUTSIDE),
            (Call::Pop, Ok(Answer::Popped(None))),
        ],
    );
    let ring = Ring::new(&mut slots, 5);
    assert_eq!(rt; ring.size(), 0);
    assert!(rt; ring.is_full());
    assert!(rt; ring.is_empty());
}

// Counts one past their span, and a slot that was never put and holds what it held.
#[test]
fn spans(rt: HostRuntime) {
    let mut slots = [20, 21, 22, 23, 24];
    answers(
        &rt,
        &mut slots,
        0,
        &[
            (Call::Reserve(3), Ok(Answer::Span(3, 0))),
            (Call::Reserve(2), Ok(Answer::Span(0, 3))),
            (Call::Submit(4), OUTSIDE),
            (Call::Withdraw(4), OUTSIDE),
            (Call::Push(9), OUTSIDE),
            (Call::Put(1, 31), Ok(Answer::Done)),
            (Call::Withdraw(1), Ok(Answer::Done)),
            (Call::Put(2, 32), OUTSIDE),
            (Call::Submit(2), Ok(Answer::Done)),
            (Call::Peek(1), Ok(Answer::Span(1, 0))),
            (Call::Get(1), OUTSIDE),
            (Call::Cancel(2), OUTSIDE),
            (Call::Release(2), OUTSIDE),
            (Call::Get(0), Ok(Answer::Entry(20))),
            (Call::Peek(9), Ok(Answer::Span(1, 1))),
            (Call::Get(1), Ok(Answer::Entry(31))),
            (Call::Pop, Ok(Answer::Popped(Some(20)))),
            (Call::Release(2), OUTSIDE),
            (Call::Get(1), Ok(Answer::Entry(31))),
            (Call::Release(1), Ok(Answer::Done)),
        ],
    );
    assert!(rt; slots == [20, 31, 22, 23, 24]);
}

// What a batch peeked is put back on each way out, and what was peeked before it stays peeked.
#[test]
fn batches(rt: HostRuntime) -> Result<(), Fail> {
    let mut slots = [0u64; 4];
    let mut ring = Ring::new(&mut slots, u32::MAX);
    ring.push(1)?;
    assert_eq!(rt; ring.pop_pair(), Err(Refusal::OutsideSpan));
    assert_eq!(rt; ring.peek(9), (1, u32::MAX));
    assert_eq!(rt; ring.pop_pair(), Err(Refusal::OutsideSpan));
    assert_eq!(rt; ring.get(u32::MAX), Ok(1));
    ring.push(2)?;
    ring.push(3)?;
    assert_eq!(rt; ring.pop_pair(), Ok((1, 2)));
    assert_eq!(rt; ring.consumer(), 1);
    assert_eq!(rt; ring.release(1), Err(Refusal::OutsideSpan));
    Ok(())
}

#[test]
fn batches_into_a_slice(rt: HostRuntime) -> Result<(), Fail> {
    let mut slots = [0u64; 2];
    let mut ring = Ring::new(&mut slots, 7);
    let mut out = [8, 8];
    ring.push(3)?;
    assert_eq!(rt; ring.pop_exact(&mut out), Err(Refusal::OutsideSpan));
    assert!(rt; out == [8, 8]);
    assert_eq!(rt; ring.peek(0), (0, 7));
    ring.push(4)?;
    ring.pop_exact(&mut out)?;
    assert!(rt; out == [3, 4]);
    assert_eq!(rt; ring.len(), 0);
    assert_eq!(rt; ring.producer(), 9);
    Ok(())
}

#[test]
fn named_frames(rt: HostRuntime) -> Result<(), Fail> {
    let mut slots = [Descriptor::new(0, 0); 4];
    let mut ring = Ring::new(&mut slots, 0);
    for (address, length) in [(4096, 60), (8191, 1), (2047, 1)] {
        ring.push(Descriptor::new(address, length))?;
    }
    assert_eq!(rt; ring.peek(1), (1, 0));
    assert_eq!(rt; ring.reserve(1), (1, 3));
    for (frame, count) in [(0, 1), (1, 0), (2, 1), (3, 1)] {
        assert_eq!(rt; ring.count_naming(frame), count);
    }
    assert_eq!(rt; ring.pop(), Some(Descriptor::new(4096, 60)));
    let mut addresses = [0u64; 2];
    let mut fill = Ring::new(&mut addresses, 9);
    fill.push(4095)?;
    assert_eq!(rt; fill.count_naming(1), 1);
    Ok(())
}

#[test]
fn any_calls(rt: HostRuntime) {
    let mut slots = [0; 4];
    let calls = [
        Call::Reserve(3),
        Call::Put(7, 1),
        Call::Submit(2),
        Call::Submit(2),
        Call::Withdraw(1),
        Call::Push(5),
        Call::Pop,
    ];
    assert_eq!(rt; session(&mut slots, 7, &calls), 2);
}

// A plain list beside the ring: both agree over many calls, and across the wrap.
#[test]
fn beside_a_plain_list(rt: HostRuntime) -> Result<(), Fail> {
    let mut slots = [0u64; 16];
    let mut ring = Ring::new(&mut slots, 4294966000);
    let mut list = VecDeque::new(rt.alloc());
    let mut chance = 1u64;
    for step in 0..20000u64 {
        chance = chance
            .wrapping_mul(6364136223846793005)
            .wrapping_add(1442695040888963407);
        if (chance >> 40) % 2 == 0 {
            let room = list.len() < 16;
            assert_eq!(rt; ring.is_full(), !room);
            assert_eq!(rt; ring.push(step).is_ok(), room);
            if room {
                list.push_back(step)?;
            }
        } else {
            assert_eq!(rt; ring.pop(), list.pop_front());
        }
        assert_eq!(rt; ring.len() as usize, list.len());
    }
    Ok(())
}
