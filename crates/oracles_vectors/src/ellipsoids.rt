// Operations 60, 61 and 119 to 122: the ellipsoids.
use crate::ell_places::{Places, places_of};
use lists::inputs::{Inputs, fit};
use lists::pushes::Got;
use lists::rooms::{Rooms, front};
use lists::tally::Unreplayed;
use numbers::cut::CutStatus;
use numbers::refusal::Refusal;
use oracles::ell::Ell;
use oracles::ell_common::CutStrategy;
use oracles::ell_stable::EllStable;

// An update's answer, and the numbers of the ellipsoid after it.
#[derive(Clone, Copy)]
struct Outcome {
    answer: Result<CutStatus, Refusal>,
    kappa: f64,
    tsq: f64,
}

// The kind of cut: bias 0, central 1, q 2. No `TryFrom` beside the enum: the numbers are the lists' own, and so is it that no other counts, where C takes each other one for q.
fn strategy(how: u64) -> Result<CutStrategy, Unreplayed> {
    match how {
        0 => Ok(CutStrategy::BiasCut),
        1 => Ok(CutStrategy::CentralCut),
        2 => Ok(CutStrategy::Q),
        _ => Err(Unreplayed::Unfit),
    }
}

// xc, mq and the scratch are at the fronts of the rooms. Where n is refused there is no ellipsoid, and its numbers stay.
fn update_ell(inputs: &Inputs<'_>, p: Places, how: CutStrategy, rooms: &mut Rooms) -> Outcome {
    let kappa = inputs.float(p.numbers);
    let tsq = inputs.float(p.numbers.wrapping_add(1));
    match Ell::new_with_matrix(inputs.size(1), kappa) {
        Ok(mut ell) => {
            ell.tsq = tsq;
            let u = ell.update_core(
                how,
                inputs.part(p.grad),
                inputs.betas(p.betas),
                front(&mut rooms.b, p.mq.len),
                front(&mut rooms.a, p.xc.len),
                front(&mut rooms.c, p.s1.len),
            );
            Outcome {
                answer: u.answer,
                kappa: u.ell.kappa,
                tsq: u.ell.tsq,
            }
        }
        Err(why) => Outcome {
            answer: Err(why),
            kappa,
            tsq,
        },
    }
}

fn update_stable(inputs: &Inputs<'_>, p: Places, how: CutStrategy, rooms: &mut Rooms) -> Outcome {
    let kappa = inputs.float(p.numbers);
    let tsq = inputs.float(p.numbers.wrapping_add(1));
    match EllStable::new_with_matrix(inputs.size(1), kappa) {
        Ok(mut ell) => {
            ell.tsq = tsq;
            let u = ell.update_core(
                how,
                inputs.part(p.grad),
                inputs.betas(p.betas),
                front(&mut rooms.b, p.mq.len),
                front(&mut rooms.a, p.xc.len),
                front(&mut rooms.c, p.s1.len),
                front(&mut rooms.d, p.s2.len),
                front(&mut rooms.e, p.s3.len),
                front(&mut rooms.f, p.s4.len),
            );
            Outcome {
                answer: u.answer,
                kappa: u.ell.kappa,
                tsq: u.ell.tsq,
            }
        }
        Err(why) => Outcome {
            answer: Err(why),
            kappa,
            tsq,
        },
    }
}

// The status where there is one, the ellipsoid, and the scratch.
fn put_outcome(
    got: &mut Got,
    any: bool,
    outcome: Outcome,
    p: Places,
    rooms: &mut Rooms,
) -> Result<(), Unreplayed> {
    got.refusal(any, &outcome.answer)?;
    if let Ok(status) = outcome.answer {
        got.word(u8::from(status) as u64);
    }
    got.float(outcome.kappa);
    got.float(outcome.tsq);
    got.floats(front(&mut rooms.a, p.xc.len));
    got.floats(front(&mut rooms.b, p.mq.len));
    got.floats(front(&mut rooms.c, p.s1.len));
    Ok(())
}

fn put_more_scratch(got: &mut Got, p: Places, rooms: &mut Rooms) {
    got.floats(front(&mut rooms.d, p.s2.len));
    got.floats(front(&mut rooms.e, p.s3.len));
    got.floats(front(&mut rooms.f, p.s4.len));
}

// The Rust's no_defer_trick, which only operation 60 has, is 0.
pub(crate) fn replay_update(
    inputs: &Inputs<'_>,
    rooms: &mut Rooms,
    got: &mut Got,
) -> Result<(), Unreplayed> {
    let any = inputs.is_any();
    let p = places_of(inputs);
    fit(p.end == inputs.count)?;
    fit((inputs.op != 60) | (inputs.word(2) == 0))?;
    let how = strategy(inputs.word(0))?;
    inputs.fill(&mut rooms.a, true, p.xc);
    inputs.fill(&mut rooms.b, true, p.mq);
    inputs.fill(&mut rooms.c, any, p.s1);
    if (inputs.op == 60) | (inputs.op == 119) {
        let outcome = update_ell(inputs, p, how, rooms);
        return put_outcome(got, any, outcome, p, rooms);
    }
    inputs.fill(&mut rooms.d, any, p.s2);
    inputs.fill(&mut rooms.e, any, p.s3);
    inputs.fill(&mut rooms.f, any, p.s4);
    let outcome = update_stable(inputs, p, how, rooms);
    put_outcome(got, any, outcome, p, rooms)?;
    put_more_scratch(got, p, rooms);
    Ok(())
}

// Kappa and tsq of a new ellipsoid; zeros where it is refused.
fn put_new(got: &mut Got, new: Result<(f64, f64), Refusal>) -> Result<(), Unreplayed> {
    got.refusal(true, &new)?;
    let (kappa, tsq) = new.unwrap_or((0.0, 0.0));
    got.float(kappa);
    got.float(tsq);
    Ok(())
}

pub(crate) fn replay_new(inputs: &Inputs<'_>, got: &mut Got) -> Result<(), Unreplayed> {
    fit(inputs.count == 2)?;
    let n = inputs.size(0);
    let kappa = inputs.float(1);
    if inputs.op == 121 {
        let new = Ell::new_with_matrix(n, kappa);
        return put_new(got, new.map(|ell| (ell.kappa, ell.tsq)));
    }
    let new = EllStable::new_with_matrix(n, kappa);
    put_new(got, new.map(|ell| (ell.kappa, ell.tsq)))
}
