//! Edits of as many points as make a commit go through the whole design, where they differ early enough.

use super::rows::{Case, check_all, design_of};
use super::ways::asked_at;
use crate::calls::simulated;
use crate::compare::equal;
use gatestep::Serial;

// The output goes up at 3, and stays.
const A_BUFFER: [&str; 4] = ["input a", "net y wire", "gate g buf 3 3 y a", "stim a 0 1"];

const LATE: [&str; 32] = [
    "stim a 700 0",
    "stim a 705 1",
    "stim a 710 0",
    "stim a 715 1",
    "stim a 720 0",
    "stim a 725 1",
    "stim a 730 0",
    "stim a 735 1",
    "stim a 740 0",
    "stim a 745 1",
    "stim a 750 0",
    "stim a 755 1",
    "stim a 760 0",
    "stim a 765 1",
    "stim a 770 0",
    "stim a 775 1",
    "stim a 780 0",
    "stim a 785 1",
    "stim a 790 0",
    "stim a 795 1",
    "stim a 800 0",
    "stim a 805 1",
    "stim a 810 0",
    "stim a 815 1",
    "stim a 820 0",
    "stim a 825 1",
    "stim a 830 0",
    "stim a 835 1",
    "stim a 840 0",
    "stim a 845 1",
    "stim a 850 0",
    "stim a 855 1",
];

const EARLY: [&str; 32] = [
    "stim a 50 0",
    "stim a 55 1",
    "stim a 60 0",
    "stim a 65 1",
    "stim a 70 0",
    "stim a 75 1",
    "stim a 80 0",
    "stim a 85 1",
    "stim a 90 0",
    "stim a 95 1",
    "stim a 100 0",
    "stim a 105 1",
    "stim a 110 0",
    "stim a 115 1",
    "stim a 120 0",
    "stim a 125 1",
    "stim a 130 0",
    "stim a 135 1",
    "stim a 140 0",
    "stim a 145 1",
    "stim a 150 0",
    "stim a 155 1",
    "stim a 160 0",
    "stim a 165 1",
    "stim a 170 0",
    "stim a 175 1",
    "stim a 180 0",
    "stim a 185 1",
    "stim a 190 0",
    "stim a 195 1",
    "stim a 200 0",
    "stim a 205 1",
];

// At each point, and 3 later.
const MANY_POINTS: [Case<'static>; 2] = [
    Case {
        name: "points in the second half of the run",
        first: &A_BUFFER,
        horizon: 1000,
        edits: &LATE,
        waves: &[(
            "y",
            " 0:x 3:1 703:0 708:1 713:0 718:1 723:0 728:1 733:0 738:1 743:0 748:1 753:0 758:1 763:0 768:1 773:0 778:1 783:0 788:1 793:0 798:1 803:0 808:1 813:0 818:1 823:0 828:1 833:0 838:1 843:0 848:1 853:0 858:1",
        )],
        tasks: 64,
    },
    Case {
        name: "points in the first half of the run",
        first: &A_BUFFER,
        horizon: 1000,
        edits: &EARLY,
        waves: &[(
            "y",
            " 0:x 3:1 53:0 58:1 63:0 68:1 73:0 78:1 83:0 88:1 93:0 98:1 103:0 108:1 113:0 118:1 123:0 128:1 133:0 138:1 143:0 148:1 153:0 158:1 163:0 168:1 173:0 178:1 183:0 188:1 193:0 198:1 203:0 208:1",
        )],
        tasks: 64,
    },
];

#[test]
fn many_points_at_once(rt: HostRuntime) {
    check_all(&rt, rt.alloc(), &MANY_POINTS);
}

// From 32 points on, the first of them in the first half of the run, the whole design is gone through from the beginning. Else
// what differs is followed: here for one moment, since looks cost too much in a design of one gate.
#[test]
fn which_way_many_points_take(rt: HostRuntime) {
    let old = design_of(&rt, rt.alloc(), &MANY_POINTS[0]);
    let run = simulated(&rt, rt.alloc(), &old, &mut Serial::new());
    for (name, lines, wanted) in [
        ("31 early ones", &EARLY[..31], (1, 1, 61)),
        ("32 early ones", &EARLY[..], (0, 0, 64)),
        ("32 late ones", &LATE[..], (1, 1, 63)),
    ] {
        let asked = asked_at(&rt, rt.alloc(), &old, &run, lines, None);
        equal(&rt, name, asked, wanted);
    }
    drop(run);
    drop(old);
}
