//! What `read` makes of a text: its design, all of it, or its fault.

use crate::compare::equal;
use design::{Design, Gate, NameHasher, Net, NetKey, Terminal};
use fourstate::{Magnitude, TimeUnit, Unit, Value, delay};
use std::alloc::Global;
use std::process::Abort;
use vread::{ReadFault, read};

const NETLIST: &str = "`timescale 10 us / 1 ns
module m (y, a, b, w);
  input wire a;
  input wand b;
  output y, w;
  wor n;
  nand #(3,7) g1 (n, a, b);
  buf #2 g (y, w, n);
  not (z, 1'bx);
  bufif1 #5 (n, z, b);
endmodule
";

fn add(rt: &impl Abort, shown: &mut String, text: &str) {
    shown.push_str(text).expect(rt, "room");
}

// A net as `NAME:KIND`, an input with `<`.
fn add_net(rt: &impl Abort, shown: &mut String, net: &Net) {
    add(rt, shown, if net.is_input() { " <" } else { " " });
    add(rt, shown, net.name().as_str());
    add(rt, shown, ":");
    add(rt, shown, net.kind().keyword());
}

// The name of a net, a question mark where it is not there.
fn name_of<'a>(design: &'a Design, net: NetKey) -> &'a str {
    match design.net_place_of(net) {
        Some(place) => design.net_at(place).name().as_str(),
        None => "?",
    }
}

fn add_terminal(rt: &impl Abort, shown: &mut String, design: &Design, terminal: Terminal) {
    add(rt, shown, " ");
    match terminal {
        Terminal::Net(net) => add(rt, shown, name_of(design, net)),
        Terminal::Constant(value) => {
            shown.push(char::from(value.symbol())).expect(rt, "room");
        }
    }
}

// A gate as `NAME=KIND #(RISE,FALL) OUTPUT INPUTS`, with `,OFF` behind the fall where it has a turn-off delay; a constant by
// its value.
fn add_gate(rt: &impl Abort, shown: &mut String, design: &Design, gate: &Gate) {
    add(rt, shown, " / ");
    add(rt, shown, gate.name().as_str());
    let delays = gate.delays();
    let (rise, fall) = (delay(&delays, Value::One), delay(&delays, Value::Zero));
    let kind = gate.kind().keyword();
    write!(shown, "={kind} #({rise},{fall}").expect(rt, "room");
    if delays.has_off() {
        let off = delay(&delays, Value::HighZ);
        write!(shown, ",{off}").expect(rt, "room");
    }
    add(rt, shown, ") ");
    add(rt, shown, name_of(design, gate.output()));
    for input in gate.inputs() {
        add_terminal(rt, shown, design, *input);
    }
}

fn add_design(rt: &impl Abort, shown: &mut String, design: &Design) {
    add(rt, shown, design.top().as_str());
    add(rt, shown, ":");
    for place in 0..design.net_count() {
        add_net(rt, shown, design.net_at(place));
    }
    for place in 0..design.gate_count() {
        add_gate(rt, shown, design, design.gate_at(place));
    }
}

fn add_fault(rt: &impl Abort, shown: &mut String, fault: ReadFault) {
    let (code, name) = (fault.kind.code(), fault.kind.name());
    write!(shown, "line {}: {code} {name}", fault.line).expect(rt, "room");
}

// The design that a text spells, or its fault as `line L: C NAME`.
fn shown(rt: &impl Abort, alloc: Global, text: &str, default: Option<u32>) -> String {
    let mut shown = String::new(alloc);
    match read(alloc, NameHasher::fixed(), text.as_bytes(), default) {
        Ok(design) => {
            add_design(rt, &mut shown, &design);
            drop(design);
        }
        Err(fault) => add_fault(rt, &mut shown, fault),
    }
    shown
}

// What a text spells, or its fault, is this, where gates without a delay have the default one.
fn check(rt: &impl Abort, alloc: Global, text: &str, default: Option<u32>, want: &str) {
    let read = shown(rt, alloc, text, default);
    equal(rt, text, read.as_str(), want);
    drop(read);
}

#[test]
fn a_netlist(rt: HostRuntime) {
    let want =
        "m: y:wire <a:wire <b:wand w:wire n:wor z:wire / g1=nand #(3,7) n a b / g$1=buf #(2,2) y n / g$2=buf #(2,2) w n / $1=not #(4,4) z x / $2=bufif1 #(5,5) n z b";
    check(&rt, rt.alloc(), NETLIST, Some(4), want);
    check(&rt, rt.alloc(), NETLIST, None, "line 9: 11 ZeroDelay");
}

// A text, and the unit that it writes, or the default.
const UNITS: [(&str, Magnitude, Unit); 4] = [
    ("module m; endmodule", Magnitude::One, Unit::Nanosecond),
    (
        "`timescale 100 fs/1 fs module m; endmodule",
        Magnitude::Hundred,
        Unit::Femtosecond,
    ),
    (
        "`timescale 1 s/1 ps module m; endmodule",
        Magnitude::One,
        Unit::Second,
    ),
    (NETLIST, Magnitude::Ten, Unit::Microsecond),
];

fn check_head(rt: &impl Abort, design: &Design, unit: TimeUnit) {
    equal(rt, "unit", design.unit(), unit);
    equal(rt, "horizon", design.horizon(), 0);
    equal(rt, "point count", design.point_count(), 0);
}

fn check_unit(rt: &impl Abort, alloc: Global, text: &str, unit: TimeUnit) {
    let read = read(alloc, NameHasher::fixed(), text.as_bytes(), Some(1));
    let design = read.expect(rt, "a design");
    check_head(rt, &design, unit);
    drop(design);
}

#[test]
fn units(rt: HostRuntime) {
    for (text, magnitude, unit) in UNITS {
        check_unit(&rt, rt.alloc(), text, TimeUnit { magnitude, unit });
    }
}
