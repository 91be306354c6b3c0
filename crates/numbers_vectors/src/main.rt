// Replays a list of the Rust's answers (docs/LISTS.md) through the public functions of `numbers`, case by case from standard input.
#![tactic(auto)]

mod arrays;
mod cuts;

use crate::arrays::replay_array;
use crate::cuts::{replay_calc, replay_core, replay_new, replay_root};
use lists::inputs::Inputs;
use lists::pushes::Got;
use lists::replay::{ReplayIn, replay_list_in};
use lists::report::Report;
use lists::rooms::Room;
use lists::tally::Unreplayed;

// The calls of this layer.
struct Numbers;

// The operations are numbers here as in docs/LISTS.md, so that the match reads as its table.
impl ReplayIn for Numbers {
    // None of its calls writes more than one slice.
    type Rooms = Room;

    fn replay(
        &self,
        inputs: &Inputs<'_>,
        room: &mut Room,
        got: &mut Got,
    ) -> Result<(), Unreplayed> {
        match inputs.op {
            1 => replay_root(inputs, got),
            2..=5 | 100..=104 => replay_array(inputs, room, got),
            10..=16 => replay_core(inputs, got),
            20..=28 => replay_calc(inputs, got),
            105 => replay_new(inputs, got),
            _ => Err(Unreplayed::Unknown),
        }
    }
}

// Each program is a crate, whose main names its layer; `replay_list_in` is all that they do.
fn main(rt: HostRuntime) {
    let mut report = Report::new(rt.stdout());
    let mut room = [0.0; 65536];
    replay_list_in(&mut rt.stdin(), &mut report, &Numbers, &mut room);
}
