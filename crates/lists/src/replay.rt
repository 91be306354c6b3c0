// Replays a list: each case's call is made, and its answer compared with what the list has.
ghost use Rattle.std.specs.Prelude.{◌≡◌};
ghost use Rattle.lists.specs.Tally.{none_differ};

use crate::inputs::Inputs;
use crate::pushes::Got;
use crate::report::Report;
use crate::rooms::{Room, Rooms, fill};
use crate::tally::Unreplayed;
use std::io::{Read, Write};

// A layer's calls, with the rooms that they write. A trait and no closure, of which a caller would have to show that it may be called.
pub trait ReplayIn {
    // As many rooms as its calls write, since each is half a mebibyte of the stack.
    type Rooms: Drop;

    // Makes the case's call, and gives its answer's words. What is read, what is scratch and what is written stay three: most functions below it take one or two of them.
    fn replay(
        &self,
        inputs: &Inputs<'_>,
        rooms: &mut Self::Rooms,
        got: &mut Got,
    ) -> Result<(), Unreplayed>;
}

// The rooms of a replay, beside those of its layer: the words of a case, the same as floats, what is expected, and what came.
#[derive(Drop)]
struct Buffers {
    inputs: [u8; 524288],
    floats: Room,
    expected: [u8; 524288],
    got: Got,
}

// Replays the next case; whether there was one.
fn replay_next<R: Read, W: Write, L: ReplayIn>(
    report: &mut Report<W>,
    input: &mut R,
    buffers: &mut Buffers,
    rooms: &mut L::Rooms,
    layer: &L,
) -> bool {
    let next = report.take_case(input, &mut buffers.inputs, &mut buffers.expected);
    let Ok(Some(case)) = next else {
        return false;
    };
    fill(&mut buffers.floats, &buffers.inputs, true, 0, case.ins);
    buffers.got.len = 0;
    let inputs = Inputs {
        op: case.op,
        count: case.ins,
        bytes: &buffers.inputs,
        floats: &buffers.floats,
    };
    let replayed = layer.replay(&inputs, rooms, &mut buffers.got);
    let len = buffers.got.len;
    report.judge(
        case,
        &buffers.expected,
        replayed.map(|()| len),
        &buffers.got.bytes,
    );
    true
}

// Replays a list to its end, and prints the counts; whether no case differs. A proved loop has to end, so the position bounds it.
// The rooms are lent, since what is handed back by value is copied on the way where nothing optimizes it.
pub fn replay_list_in<R: Read, W: Write, L: ReplayIn>(
    input: &mut R,
    report: &mut Report<W>,
    layer: &L,
    rooms: &mut L::Rooms,
) -> bool
    ensures { result ≡ none_differ report.new.tally }
{
    let mut buffers = Buffers {
        inputs: [0; 524288],
        floats: [0.0; 65536],
        expected: [0; 524288],
        got: Got {
            bytes: [0; 524288],
            len: 0,
        },
    };
    for position in 1..u64::MAX {
        report.position = position;
        if !replay_next(report, input, &mut buffers, rooms, layer) {
            break;
        }
    }
    report.print_totals()
}

// A layer's calls, where `Rooms` are what they write. A layer that writes less says so by `ReplayIn`.
pub trait Replay {
    // As `ReplayIn::replay`.
    fn replay(
        &self,
        inputs: &Inputs<'_>,
        rooms: &mut Rooms,
        got: &mut Got,
    ) -> Result<(), Unreplayed>;
}

// A `Replay` as a `ReplayIn`.
#[derive(Drop)]
struct InRooms<'a, L> {
    layer: &'a L,
}

impl<L: Replay> ReplayIn for InRooms<'_, L> {
    type Rooms = Rooms;

    fn replay(
        &self,
        inputs: &Inputs<'_>,
        rooms: &mut Rooms,
        got: &mut Got,
    ) -> Result<(), Unreplayed> {
        self.layer.replay(inputs, rooms, got)
    }
}

// Replays a list of such a layer. The rooms are made here, 3 MiB of the stack.
pub fn replay_list<R: Read, W: Write, L: Replay>(
    input: &mut R,
    report: &mut Report<W>,
    layer: &L,
) -> bool
    ensures { result ≡ none_differ report.new.tally }
{
    let mut rooms = Rooms {
        a: [0.0; 65536],
        b: [0.0; 65536],
        c: [0.0; 65536],
        d: [0.0; 65536],
        e: [0.0; 65536],
        f: [0.0; 65536],
    };
    replay_list_in(input, report, &InRooms { layer }, &mut rooms)
}

#[cfg(test)]
mod tests;
