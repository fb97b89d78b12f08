// The frame queue at digests and at a game's inputs.
use duel::input::{Direction, DuelInput};
use frames::queue::FrameQueue;
use interface::input::InputKind;
use std::process::Abort;

// Puts each frame's own number, from frame 0 on.
fn fill(rt: &impl Abort, queue: &mut FrameQueue, slots: &mut [u32], frames: u32) {
    for frame in 0..frames {
        assert!(rt; queue.put(slots, frame, frame).is_ok());
    }
}

// Puts each frame of a table, which says where that is accepted.
fn puts<T: Copy>(
    rt: &impl Abort,
    queue: &mut FrameQueue,
    slots: &mut [T],
    cases: &[(u32, T, bool)],
) {
    for (frame, value, accepted) in cases {
        assert_eq!(rt; queue.put(slots, *frame, *value).is_ok(), *accepted);
    }
}

// Reads each frame of a table.
fn gets(rt: &impl Abort, queue: &FrameQueue, slots: &[u32], cases: &[(u32, Option<u32>)]) {
    for (frame, value) in cases {
        assert_eq!(rt; queue.get(slots, *frame), *value);
    }
}

#[test]
fn digests_in_a_queue(rt: HostRuntime) {
    let mut slots = [0u32; 32];
    let mut queue = FrameQueue::new();
    puts(&rt, &mut queue, &mut slots, &[(1, 1, false)]);
    fill(&rt, &mut queue, &mut slots, 40);
    gets(
        &rt,
        &queue,
        &slots,
        &[
            (0, None),
            (7, None),
            (8, Some(8)),
            (39, Some(39)),
            (40, None),
            (4_294_967_295, None),
        ],
    );
    puts(
        &rt,
        &mut queue,
        &mut slots,
        &[
            (7, 1, false),
            (41, 1, false),
            (8, 1, true),
            (40, 1, true),
            (8, 1, false),
        ],
    );
    gets(
        &rt,
        &queue,
        &slots,
        &[(8, None), (9, Some(9)), (40, Some(1))],
    );
    assert_eq!(rt; queue.next(), 41);
}

#[test]
fn slots_of_a_wrong_number(rt: HostRuntime) {
    let mut few = [5u32; 31];
    let mut queue = FrameQueue::new();
    puts(&rt, &mut queue, &mut few, &[(0, 1, false)]);
    gets(&rt, &queue, &few, &[(0, None)]);
    assert_eq!(rt; queue.next(), 0);
}

#[test]
fn the_last_frame_of_a_queue(rt: HostRuntime) {
    let mut slots = [0u32; 32];
    let mut queue = FrameQueue::new();
    fill(&rt, &mut queue, &mut slots, 65_536);
    puts(
        &rt,
        &mut queue,
        &mut slots,
        &[(65_536, 1, false), (65_504, 1, true), (65_503, 1, false)],
    );
    gets(
        &rt,
        &queue,
        &slots,
        &[(65_535, Some(65_535)), (65_504, Some(1))],
    );
}

// The code of a frame's input, if it is held.
fn code_at(queue: &FrameQueue, slots: &[DuelInput], frame: u32) -> Option<u16> {
    queue.get(slots, frame).map(|input| input.code())
}

#[test]
fn inputs_in_a_queue(rt: HostRuntime) {
    let fire = DuelInput {
        steer: None,
        fire: true,
    };
    let left = DuelInput {
        steer: Some(Direction::Left),
        fire: false,
    };
    let mut slots = [DuelInput {
        steer: None,
        fire: false,
    }; 32];
    let mut queue = FrameQueue::new();
    puts(
        &rt,
        &mut queue,
        &mut slots,
        &[
            (0, fire, true),
            (1, left, true),
            (0, left, true),
            (3, fire, false),
        ],
    );
    assert_eq!(rt; code_at(&queue, &slots, 0), Some(4));
    assert_eq!(rt; code_at(&queue, &slots, 1), Some(4));
    assert_eq!(rt; code_at(&queue, &slots, 2), None);
}
