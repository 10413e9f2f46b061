//! A design of which 20 gates are stirred at a moment.

use crate::edit_lists::edit_lines::{edit, edits, made_of};
use design::Design;
use std::alloc::Global;
use std::process::Abort;

// The point at 45 lies past the horizon.
const LINES: [&str; 11] = [
    "input a",
    "input b",
    "net y wire",
    "net z wire",
    "gate h buf 2 2 z b",
    "stim a 0 0",
    "stim a 10 1",
    "stim b 0 0",
    "stim b 20 1",
    "stim b 45 0",
    "horizon 40",
];

/// The 20 gates that drive y are asked at 0, 1, 10 and 11, and h, which drives z, at 0, 2, 20 and 22.
pub fn twenty(rt: &impl Abort, alloc: Global) -> Design {
    let mut edits = edits(rt, alloc, &LINES);
    for n in 0..20 {
        let line = format!(in alloc; "gate g{n} not 1 1 y a").expect(rt, "a line");
        let edit = edit(rt, alloc, line.as_str());
        edits.push(edit).expect(rt, "one edit more");
    }
    made_of(rt, alloc, edits)
}
