// Operations 70, 71, 140 and 141: the drivers.
use crate::places::{Places, check, is_optim, options_of, places_of};
use crate::run_words::{Outcome, put_outcome};
use drivers::cutting_plane::Options;
use drivers::cutting_plane_feas::cutting_plane_feas;
use drivers::cutting_plane_optim::{OptimStop, cutting_plane_optim};
use lists::inputs::Inputs;
use lists::pushes::Got;
use lists::rooms::{Rooms, front};
use lists::tally::Unreplayed;
use oracles::ell::Ell;

// The slices are at the fronts of the rooms. The two drivers differ in gamma and in what they answer, so that each has its own call.
fn run(inputs: &Inputs<'_>, p: Places, ell: Ell, options: Options, rooms: &mut Rooms) -> Outcome {
    let oracle = p.state.oracle(inputs);
    let rows = inputs.size(1);
    let table = inputs.part(p.table);
    let xc = front(&mut rooms.a, p.xc.len);
    let mq = front(&mut rooms.b, p.mq.len);
    let grad = front(&mut rooms.c, p.grad.len);
    let grad_t = front(&mut rooms.d, p.grad_t.len);
    let best = front(&mut rooms.e, p.best.len);
    if is_optim(inputs) {
        let gamma = inputs.float(p.gamma);
        return Outcome::from(cutting_plane_optim(
            oracle, ell, gamma, options, rows, table, mq, xc, grad, grad_t, best,
        ));
    }
    Outcome::from(cutting_plane_feas(
        oracle, ell, options, rows, table, mq, xc, grad, grad_t, best,
    ))
}

// Where n is refused there is no ellipsoid, and its numbers are 0.
fn call(inputs: &Inputs<'_>, p: Places, options: Options, rooms: &mut Rooms) -> Outcome {
    match Ell::new_with_matrix(inputs.size(0), inputs.float(p.kappa)) {
        Ok(mut ell) => {
            ell.tsq = inputs.float(p.kappa.wrapping_add(1));
            run(inputs, p, ell, options, rooms)
        }
        Err(why) => Outcome {
            answer: Err(OptimStop::Refused(why)),
            gamma: inputs.float(p.gamma),
            oracle: p.state.oracle(inputs),
            kappa: 0.0,
            tsq: 0.0,
        },
    }
}

pub(crate) fn replay_run(
    inputs: &Inputs<'_>,
    rooms: &mut Rooms,
    got: &mut Got,
) -> Result<(), Unreplayed> {
    let any = inputs.is_any();
    let p = places_of(inputs);
    check(inputs, p)?;
    let options = options_of(inputs, p)?;
    inputs.fill(&mut rooms.a, true, p.xc);
    inputs.fill(&mut rooms.b, true, p.mq);
    inputs.fill(&mut rooms.c, any, p.grad);
    inputs.fill(&mut rooms.d, any, p.grad_t);
    inputs.fill(&mut rooms.e, any, p.best);
    let outcome = call(inputs, p, options, rooms);
    put_outcome(inputs, p, outcome, rooms, got)
}
