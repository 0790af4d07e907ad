// The worked values of frames and packets, and what refusals and causes say.
use crate::cause::Cause;
use crate::descriptor::Descriptor;
use crate::frames::*;
use crate::refusal::Refusal;
use std::test::Fail;

#[test]
fn addresses_name_frames(rt: HostRuntime) {
    for (address, frame) in [(0, 0), (2047, 0), (2048, 1), (4095, 1), (4096, 2)] {
        assert_eq!(rt; frame_of(address), frame);
    }
    assert_eq!(rt; frame_of(u64::MAX), 9007199254740991);
    assert_eq!(rt; frame_start(2), 4096);
    assert_eq!(rt; memory_size(256), 524288);
    let entry = Descriptor::new(4096 + 256, 60);
    assert_eq!(rt; entry.frame(), 2);
    assert_eq!(rt; entry.offset(), 256);
    assert_eq!(rt; entry.options(), 0);
}

#[test]
fn frame_counts(rt: HostRuntime) {
    for (frames, fits) in [
        (0, false),
        (1, true),
        (256, true),
        (257, false),
        (u32::MAX, false),
    ] {
        assert_eq!(rt; is_frame_count(frames), fits);
    }
}

#[test]
fn packet_lengths(rt: HostRuntime) {
    for length in [14, 60, 1792] {
        assert_eq!(rt; check_packet_length(length), Ok(()));
    }
    for length in [0, 13, 1793, usize::MAX] {
        assert_eq!(rt;
            check_packet_length(length),
            Err(Refusal::WrongPacketLength)
        );
    }
    assert_eq!(rt; Refusal::WrongPacketLength.number(), 3);
}

#[test]
fn plain_words(rt: HostRuntime) -> Result<(), Fail> {
    let heap = rt.alloc();
    let refusal = Refusal::NotATrace;
    assert_eq!(rt; refusal.number(), 17);
    assert_eq!(rt;
        refusal.to_string(heap)?.as_str(),
        "this is not a trace file"
    );
    let cause = Cause::NoCopyFrame;
    assert_eq!(rt; cause.number(), 6);
    assert_eq!(rt;
        cause.to_string(heap)?.as_str(),
        "the pool had no frame for a copy"
    );
    Ok(())
}
