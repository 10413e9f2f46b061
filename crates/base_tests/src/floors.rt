//! Five tasks in two pieces, event by event, with strangers and doubles.

use crate::compare::equal;
use floor::{Floor, FloorFault, Piece};
use fourstate::Value;
use fourstate::Value::{One, Unknown, Zero};
use gatestep::Driver;
use std::process::Abort;

fn driver(value: Value, t: u64) -> Driver {
    if value == Unknown {
        return Driver::start();
    }
    Driver::waiting(Unknown, value, t)
}

/// A call of a floor, and its reply.
#[derive(Clone, Copy)]
enum Event {
    /// The number of the piece that is dealt, its first task, and the one behind its last.
    Deal(Option<(u32, usize, usize)>),
    /// The first so many of three answers, to the piece of a number.
    Answer(u32, usize, Result<(), FloorFault>),
    Fail(u32, Result<(), FloorFault>),
    /// How many answers there are, if all are.
    Finish(Option<usize>),
}

fn take(rt: &impl Abort, floor: &mut Floor, event: Event) {
    match event {
        Event::Deal(wanted) => {
            let wanted = wanted.map(|(number, first, end)| Piece { number, first, end });
            equal(rt, "piece", floor.deal(), wanted);
        }
        Event::Answer(number, count, wanted) => {
            let answers = [driver(Unknown, 0), driver(One, 4), driver(Zero, 5)];
            assert!(rt; count <= 3);
            equal(
                rt,
                "answer",
                floor.answer(number, &answers[..count]),
                wanted,
            );
        }
        Event::Fail(number, wanted) => equal(rt, number, floor.fail(number), wanted),
        Event::Finish(wanted) => {
            let all = floor.finish();
            equal(
                rt,
                "number of answers",
                all.as_ref().map(|all| all.len()),
                wanted,
            );
        }
    }
}

fn take_all(rt: &impl Abort, floor: &mut Floor, events: &[Event]) {
    for event in events {
        take(rt, floor, *event);
    }
}

const BEFORE: [Event; 10] = [
    Event::Answer(0, 2, Err(FloorFault::Stranger)),
    Event::Deal(Some((0, 0, 2))),
    Event::Deal(Some((1, 2, 5))),
    Event::Deal(None),
    Event::Answer(1, 3, Ok(())),
    Event::Answer(1, 3, Err(FloorFault::Double)),
    Event::Fail(1, Err(FloorFault::Double)),
    Event::Answer(7, 2, Err(FloorFault::Stranger)),
    Event::Answer(0, 3, Err(FloorFault::WrongLength)),
    Event::Finish(None),
];

#[test]
fn five_tasks_in_two_pieces(rt: HostRuntime) {
    let mut floor = Floor::open(rt.alloc(), 5, 2).ok().expect(&rt, "a floor");
    take_all(&rt, &mut floor, &BEFORE);
    let first = [driver(Zero, 1), driver(One, 2)];
    equal(&rt, "answer", floor.answer(0, &first), Ok(()));
    let all = floor.finish().expect(&rt, "each piece was answered");
    let wanted = [
        first[0],
        first[1],
        driver(Unknown, 0),
        driver(One, 4),
        driver(Zero, 5),
    ];
    equal(&rt, "all", all.as_slice(), wanted.as_slice());
    take(&rt, &mut floor, Event::Finish(None));
    drop(floor);
}

const NO_TASKS: [Event; 3] = [
    Event::Deal(None),
    Event::Finish(Some(0)),
    Event::Finish(None),
];

#[test]
fn no_task_in_no_piece(rt: HostRuntime) {
    let mut floor = Floor::open(rt.alloc(), 0, 0).ok().expect(&rt, "a floor");
    take_all(&rt, &mut floor, &NO_TASKS);
    drop(floor);
}
