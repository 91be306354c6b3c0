// A list through `replay_list`, as another crate would call it: what is printed, which no contract says, and that the layer's calls are made over six rooms of zeros.
use super::*;
use crate::words::put;
use numbers::bits::to_bits;
use std::process::Abort;

// Its one operation puts each of six inputs at the end of a room, and answers for each how many numbers of the room were not plus zero, and what then stands at its end.
struct Six;

fn put_last(room: &mut Room, x: f64, got: &mut Got) {
    let mut others = 0u64;
    for y in room.iter() {
        if to_bits(*y) != 0 {
            others = others.wrapping_add(1);
        }
    }
    got.word(others);
    room[65535] = x;
    got.float(room[65535]);
}

impl Replay for Six {
    fn replay(
        &self,
        inputs: &Inputs<'_>,
        rooms: &mut Rooms,
        got: &mut Got,
    ) -> Result<(), Unreplayed> {
        if inputs.op != 1 {
            return Err(Unreplayed::Unknown);
        }
        put_last(&mut rooms.a, inputs.float(0), got);
        put_last(&mut rooms.b, inputs.float(1), got);
        put_last(&mut rooms.c, inputs.float(2), got);
        put_last(&mut rooms.d, inputs.float(3), got);
        put_last(&mut rooms.e, inputs.float(4), got);
        put_last(&mut rooms.f, inputs.float(5), got);
        Ok(())
    }
}

// Replays a list of one case, of operation `op`, whose last answer is said to be `last`: whether none differs, and what is printed.
fn replays(rt: &impl Abort, op: u64, last: u64, none_differ: bool, text: &[u8]) {
    let mut list = [0u8; 168];
    // the operation; six inputs; twelve answers
    let words = [
        op, 6, 11, 12, 13, 14, 15, 16, 12, 0, 11, 0, 12, 0, 13, 0, 14, 0, 15, 0, last,
    ];
    for (k, w) in words.iter().enumerate() {
        put(&mut list, k, *w);
    }
    let mut printed = [0u8; 200];
    let mut input = list.as_slice();
    let mut report = Report::new(printed.as_mut_slice());
    assert_eq!(rt; replay_list(&mut input, &mut report, &Six), none_differ);
    let left = report.output.len();
    assert!(rt; left <= 200);
    assert_eq!(rt; &printed[..200 - left], text);
}

#[test]
fn case_agrees(rt: HostRuntime) {
    replays(
        &rt,
        1,
        16,
        true,
        b"1: 1 agree, 0 differ\n1 agree, 0 differ\n",
    );
}

#[test]
fn case_differs(rt: HostRuntime) {
    replays(
        &rt,
        1,
        17,
        false,
        b"case 1, operation 1, word 12: expected 0000000000000011, got 0000000000000010\n1: 0 agree, 1 differ\n0 agree, 1 differ\n",
    );
}

#[test]
fn case_unknown(rt: HostRuntime) {
    replays(&rt, 2, 16, true, b"unknown: 1\n0 agree, 0 differ\n");
}
