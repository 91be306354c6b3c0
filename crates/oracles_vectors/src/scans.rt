// Operations 41 and 112: the scan of one band.
use lists::inputs::{Inputs, Span, fit};
use lists::pushes::Got;
use lists::rooms::{plus, times};
use lists::signed::word_of;
use lists::state::cursor_at;
use lists::tally::Unreplayed;
use oracles::scan::{Scan, Violation};
use oracles::scan_band::scan_at;

// The table and the point, where the words of the cursor and the limits begin, and where the case ends.
#[derive(Clone, Copy)]
struct Places {
    table: Span,
    x: Span,
    cursor: usize,
    end: usize,
}

fn places_of(inputs: &Inputs<'_>) -> Places {
    let n = inputs.size(0);
    let rows = inputs.size(1);
    if inputs.is_any() {
        let table = Span {
            at: 9,
            len: inputs.size(2),
        };
        let x = table.then(inputs.size(3));
        return Places {
            table,
            x,
            cursor: 4,
            end: x.end(),
        };
    }
    let table = Span {
        at: 2,
        len: times(rows, n),
    };
    let x = table.then(n);
    Places {
        table,
        x,
        cursor: x.end(),
        end: plus(x.end(), 5),
    }
}

// The words of a violation or of none, then those of every scan.
fn put_scan(got: &mut Got, scan: Scan) {
    match scan.viol {
        None => got.words(&[u64::MAX; 3]),
        Some(
            Violation {
                row,
                value,
                is_over,
            },
        ) => {
            got.word(row as u64);
            got.float(value);
            got.word(is_over as u64);
        }
    }
    got.float(scan.fmax);
    got.word(word_of(scan.kmax));
    got.word(word_of(scan.last));
}

// The cursor's and the limits' words are five.
pub(crate) fn replay_scan(inputs: &Inputs<'_>, got: &mut Got) -> Result<(), Unreplayed> {
    let p = places_of(inputs);
    let k = p.cursor;
    fit(p.end == inputs.count)?;
    inputs.all_signed(k, k.wrapping_add(3))?;
    let scanned = scan_at(
        inputs.size(0),
        inputs.size(1),
        inputs.part(p.table),
        inputs.part(p.x),
        cursor_at(inputs, k),
        inputs.float(k.wrapping_add(3)),
        inputs.optional(k.wrapping_add(4)),
    );
    let answer = scanned.answer;
    got.refusal(inputs.is_any(), &answer)?;
    if let Ok(scan) = answer {
        put_scan(got, scan);
    }
    got.word(word_of(scanned.cursor.cur));
    Ok(())
}
