// Replays a list of the Rust's answers (docs/LISTS.md) through the public functions of `drivers`, case by case from standard input.
#![tactic(auto)]

mod belonging;
mod filing;
mod packed;
mod places;
mod records;
mod run_words;
mod runs;
mod texts;

use crate::belonging::replay_belongs;
use crate::filing::{replay_rewrite_job, replay_write_job};
use crate::records::{replay_default, replay_read_answer, replay_read_job, replay_write_answer};
use crate::runs::replay_run;
use crate::texts::replay_text;
use lists::inputs::Inputs;
use lists::pushes::Got;
use lists::replay::{ReplayIn, replay_list_in};
use lists::report::Report;
use lists::rooms::Rooms;
use lists::tally::Unreplayed;

// The calls of this layer.
struct Drivers;

// The operations are numbers here as in docs/LISTS.md, so that the match reads as its table.
impl ReplayIn for Drivers {
    type Rooms = Rooms;

    fn replay(
        &self,
        inputs: &Inputs<'_>,
        rooms: &mut Rooms,
        got: &mut Got,
    ) -> Result<(), Unreplayed> {
        match inputs.op {
            70 | 71 | 140 | 141 => replay_run(inputs, rooms, got),
            142 => replay_default(inputs, got),
            150 => replay_read_job(inputs, rooms, got),
            151 => replay_read_answer(inputs, rooms, got),
            152 => replay_write_answer(inputs, got),
            153 => replay_belongs(inputs, rooms, got),
            155 => replay_write_job(inputs, got),
            160 => replay_text(inputs, rooms, got),
            162 => replay_rewrite_job(inputs, rooms, got),
            _ => Err(Unreplayed::Unknown),
        }
    }
}

// Each program is a crate, whose main names its layer; `replay_list_in` is all that they do.
fn main(rt: HostRuntime) {
    let mut report = Report::new(rt.stdout());
    let mut rooms = Rooms {
        a: [0.0; 65536],
        b: [0.0; 65536],
        c: [0.0; 65536],
        d: [0.0; 65536],
        e: [0.0; 65536],
        f: [0.0; 65536],
    };
    replay_list_in(&mut rt.stdin(), &mut report, &Drivers, &mut rooms);
}
