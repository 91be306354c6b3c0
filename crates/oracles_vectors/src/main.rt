// Replays a list of the Rust's answers (docs/LISTS.md) through the public functions of `oracles`, case by case from standard input.
#![tactic(auto)]

mod answers;
mod cursors;
mod ell_places;
mod ellipsoids;
mod ldlt;
mod lmi;
mod lowpass;
mod scans;
mod verdicts;

use crate::cursors::{replay_advance, replay_range};
use crate::ellipsoids::{replay_new, replay_update};
use crate::ldlt::replay_ldlt;
use crate::lmi::replay_lmi;
use crate::lowpass::replay_lowpass;
use crate::scans::replay_scan;
use crate::verdicts::replay_verdicts;
use lists::inputs::Inputs;
use lists::pushes::Got;
use lists::replay::{ReplayIn, replay_list_in};
use lists::report::Report;
use lists::rooms::Rooms;
use lists::tally::Unreplayed;

// The calls of this layer.
struct Oracles;

// The operations are numbers here as in docs/LISTS.md, so that the match reads as its table.
impl ReplayIn for Oracles {
    type Rooms = Rooms;

    fn replay(
        &self,
        inputs: &Inputs<'_>,
        rooms: &mut Rooms,
        got: &mut Got,
    ) -> Result<(), Unreplayed> {
        match inputs.op {
            40 | 110 => replay_advance(inputs, got),
            41 | 112 => replay_scan(inputs, got),
            42 | 43 | 113 | 114 => replay_lowpass(inputs, rooms, got),
            50..=52 | 115..=117 => replay_ldlt(inputs, rooms, got),
            53 | 118 => replay_lmi(inputs, rooms, got),
            60 | 61 | 119 | 120 => replay_update(inputs, rooms, got),
            111 => replay_range(inputs, got),
            121 | 122 => replay_new(inputs, got),
            130 => replay_verdicts(inputs, rooms, got),
            _ => Err(Unreplayed::Unknown),
        }
    }
}

// Each program is a crate, whose main names its layer; `replay_list_in` is all that they do.
fn main(rt: HostRuntime) {
    let mut report = Report::new(rt.stdout());
    let mut rooms = Rooms {
        a: [0.0; 65536],
        b: [0.0; 65536],
        c: [0.0; 65536],
        d: [0.0; 65536],
        e: [0.0; 65536],
        f: [0.0; 65536],
    };
    replay_list_in(&mut rt.stdin(), &mut report, &Oracles, &mut rooms);
}
