// Operations 40, 110 and 111: cursors.
use lists::inputs::{Inputs, fit};
use lists::pushes::Got;
use lists::signed::word_of;
use lists::state::cursor_at;
use lists::tally::Unreplayed;
use oracles::round_robin::RoundRobin;

// A refused cursor stays where it is.
pub(crate) fn replay_advance(inputs: &Inputs<'_>, got: &mut Got) -> Result<(), Unreplayed> {
    fit(inputs.count == 3)?;
    inputs.all_signed(0, 3)?;
    let rr = cursor_at(inputs, 0);
    let answer = rr.advance();
    got.refusal(inputs.is_any(), &answer)?;
    got.word(word_of(answer.unwrap_or(rr).current()));
    Ok(())
}

// Three words of 0 where the band is refused.
pub(crate) fn replay_range(inputs: &Inputs<'_>, got: &mut Got) -> Result<(), Unreplayed> {
    fit(inputs.count == 2)?;
    inputs.all_signed(0, 2)?;
    let answer = RoundRobin::new_range(inputs.signed(0), inputs.signed(1));
    got.refusal(true, &answer)?;
    match answer {
        Ok(rr) => got.words(&[word_of(rr.cur), word_of(rr.lo), word_of(rr.hi)]),
        Err(_) => got.words(&[0; 3]),
    }
    Ok(())
}
