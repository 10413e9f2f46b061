//! The modules of small texts, as the first pass reads them, by hand. Each test is a table over `check`: memory that is lacking ends a test by `expect`, so no
//! proof follows what a body owns to a way out of it.

use crate::compare::equal;
use design::NameHasher;
use fourstate::{Delays, Magnitude, TimeUnit, Unit, Value, delay};
use std::alloc::Global;
use std::process::Abort;
use vtext::{
    Direction, Gate, Module, ModuleInstance, Modules, Names, Net, PortConnection, Range, ReadFault,
    Terminal, gate_name, modules,
};

const BUFFER: &[u8] = b"module m(a,y); input a; output y; buf #(3,3) g(y,a); endmodule";

const NETLIST: &[u8] =
    b"module m (a,b,y);\n input a,b;\n output y;\n nand NAND2_1 (t, a, b);\n not (y, t);\nendmodule";

const OF_AN_AND: &[u8] =
    b"module m (a,b,y);\n input a,b;\n output y;\n and AND2_1 (t, a, b);\n not (y, t);\nendmodule";

fn add(rt: &impl Abort, shown: &mut String, text: &str) {
    shown.push_str(text).expect(rt, "room");
}

fn add_name(rt: &impl Abort, shown: &mut String, bytes: &[u8]) {
    for byte in bytes {
        shown.push(char::from(*byte)).expect(rt, "room");
    }
}

// A net as `NAME`, with `<` for an input, `>` for an output, and its range and its kind where they are written.
fn add_net(rt: &impl Abort, shown: &mut String, names: &Names, name: u32, net: Net) {
    let before = match net.direction {
        Some(Direction::Input) => " <",
        Some(Direction::Output) => " >",
        None => " ",
    };
    add(rt, shown, before);
    add_name(rt, shown, names.text(name));
    if let Some(Range { left, right }) = net.range {
        write!(shown, "[{left}:{right}]").expect(rt, "room");
    }
    if let Some(kind) = net.kind {
        add(rt, shown, ":");
        add(rt, shown, kind.keyword());
    }
}

fn add_terminal(rt: &impl Abort, shown: &mut String, names: &Names, terminal: Terminal) {
    match terminal {
        Terminal::Net(name) => add_name(rt, shown, names.text(name)),
        Terminal::Bit(name, index) => {
            add_name(rt, shown, names.text(name));
            write!(shown, "[{index}]").expect(rt, "room");
        }
        Terminal::Constant(value) => add_name(rt, shown, &[value.symbol()]),
    }
}

fn add_gate_name(rt: &impl Abort, alloc: Global, shown: &mut String, names: &Names, gate: &Gate) {
    let name = gate_name(alloc, names, gate).expect(rt, "a name");
    add_name(rt, shown, name.as_slice());
    drop(name);
}

// A gate as `NAME=KIND #(RISE,FALL) OUTPUT INPUTS`, with `,OFF` behind the fall where it has a turn-off delay; a constant by
// its value.
fn add_gate(rt: &impl Abort, alloc: Global, shown: &mut String, names: &Names, gate: &Gate) {
    add(rt, shown, " / ");
    add_gate_name(rt, alloc, shown, names, gate);
    let kind = gate.kind().keyword();
    let delays = Delays::from_times(gate.delays()).expect(rt, "delays");
    let rise = delay(&delays, Value::One);
    let fall = delay(&delays, Value::Zero);
    write!(shown, "={kind} #({rise},{fall}").expect(rt, "room");
    if let Some(off) = gate.delays().off {
        write!(shown, ",{off}").expect(rt, "room");
    }
    add(rt, shown, ") ");
    add_terminal(rt, shown, names, gate.output());
    for input in gate.inputs() {
        add(rt, shown, " ");
        add_terminal(rt, shown, names, *input);
    }
}

// What a port is connected to, `-` for nothing; with `.PORT=` before it where the connection names the port.
fn add_connection(rt: &impl Abort, shown: &mut String, names: &Names, connection: PortConnection) {
    add(rt, shown, " ");
    if let Some(port) = connection.port {
        add(rt, shown, ".");
        add_name(rt, shown, names.text(port));
        add(rt, shown, "=");
    }
    match connection.terminal {
        Some(terminal) => add_terminal(rt, shown, names, terminal),
        None => add(rt, shown, "-"),
    }
}

// An instance as `NAME=MODULE CONNECTIONS`.
fn add_instance(rt: &impl Abort, shown: &mut String, names: &Names, instance: &ModuleInstance) {
    add(rt, shown, " + ");
    add_name(rt, shown, names.text(instance.name()));
    add(rt, shown, "=");
    add_name(rt, shown, names.text(instance.module()));
    for connection in instance.connections() {
        add_connection(rt, shown, names, *connection);
    }
}

fn add_nets(rt: &impl Abort, shown: &mut String, names: &Names, module: &Module) {
    for place in 0..module.net_count() {
        if let Some((name, net)) = module.net_at(place) {
            add_net(rt, shown, names, name, net);
        }
    }
}

fn add_module(rt: &impl Abort, alloc: Global, shown: &mut String, names: &Names, module: &Module) {
    add_nets(rt, shown, names, module);
    for gate in module.gates() {
        add_gate(rt, alloc, shown, names, gate);
    }
    for instance in module.instances() {
        add_instance(rt, shown, names, instance);
    }
}

fn add_module_at(rt: &impl Abort, alloc: Global, shown: &mut String, read: &Modules, place: usize) {
    if let Some((name, module)) = read.at(place) {
        add_name(rt, shown, read.names().text(name));
        add(rt, shown, ":");
        add_module(rt, alloc, shown, read.names(), module);
    }
}

// Modules in order, with ` | ` between them.
fn add_modules(rt: &impl Abort, alloc: Global, shown: &mut String, read: &Modules) {
    for place in 0..read.count() {
        if place > 0 {
            add(rt, shown, " | ");
        }
        add_module_at(rt, alloc, shown, read, place);
    }
}

fn add_fault(rt: &impl Abort, shown: &mut String, fault: ReadFault) {
    let (code, name) = (fault.kind.code(), fault.kind.name());
    write!(shown, "line {}: {code} {name}", fault.line).expect(rt, "room");
}

// What a text says, or its fault as `line L: C NAME`.
fn shown(rt: &impl Abort, alloc: Global, text: &[u8], default: Option<u32>) -> String {
    let mut shown = String::new(alloc);
    match modules(alloc, NameHasher::fixed(), text, default) {
        Ok(read) => {
            add_modules(rt, alloc, &mut shown, &read);
            drop(read);
        }
        Err(fault) => add_fault(rt, &mut shown, fault),
    }
    shown
}

fn check(rt: &impl Abort, alloc: Global, text: &[u8], default: Option<u32>, want: &str) {
    let read = shown(rt, alloc, text, default);
    equal(rt, (text, default), read.as_str(), want);
    drop(read);
}

/// A text, and what it says or its fault.
pub type Case<'a> = (&'a str, &'a str);

/// Each text says this.
pub fn check_all(rt: &impl Abort, alloc: Global, cases: &[Case<'_>]) {
    for (text, want) in cases {
        check(rt, alloc, text.as_bytes(), None, want);
    }
}

const READ: [Case<'static>; 14] = [
    ("", ""),
    ("module m;endmodule", "m:"),
    ("module m(); endmodule", "m:"),
    // Ports stand in the header's order, other nets by first appearance.
    (
        "module m(y,a); wire n; input a; output y; endmodule",
        "m: >y <a n:wire",
    ),
    // The inline form: a bare name takes the last direction and kind.
    (
        "module m(input wand a, b, output c); endmodule",
        "m: <a:wand <b:wand >c",
    ),
    ("module m(input a); wire a; endmodule", "m: <a:wire"),
    (
        "module m; buf #3 (a,b); endmodule",
        "m: a b / $1=buf #(3,3) a b",
    ),
    (
        "module m; buf #(10,1) g(a,b); endmodule",
        "m: a b / g=buf #(10,1) a b",
    ),
    // Several outputs are a gate each; unnamed instances are counted.
    (
        "module m; buf #1 g(y,z,a), (b,a); not #2 (c,d,1'bx); endmodule",
        "m: y z a b c d / g$1=buf #(1,1) y a / g$2=buf #(1,1) z a / $1=buf #(1,1) b a / $2$1=not #(2,2) c x / $2$2=not #(2,2) d x",
    ),
    // An escaped name is the same as the plain one, and never a word of the grammar.
    (
        "module \\m ; and #1 \\always (\\n1 ,n1,n1); endmodule",
        "m: n1 / always=and #(1,1) n1 n1 n1",
    ),
    (
        "module m; bufif1 #1 g(n,1'B0,c); endmodule",
        "m: n c / g=bufif1 #(1,1) n 0 c",
    ),
    // Of three numbers the last is the turn-off delay, of each gate of the item.
    (
        "module m; bufif1 #(2,3,5) g(n,d,c), (n,c,d); bufif0 #(1,2,1000000) (n,d,c); endmodule",
        "m: n d c / g=bufif1 #(2,3,5) n d c / $1=bufif1 #(2,3,5) n c d / $2=bufif0 #(1,2,1000000) n d c",
    ),
    (
        "module m; notif1 # ( 3 , 2 , 1 ) (n,d,c); notif0 #(3,2) (n,d,c); notif0 #4 (n,d,c); endmodule",
        "m: n d c / $1=notif1 #(3,2,1) n d c / $2=notif0 #(3,2) n d c / $3=notif0 #(4,4) n d c",
    ),
    // An escaped name may begin as a word does that none may have.
    ("module m; wire \\$endx ; endmodule", "m: $endx:wire"),
];

#[test]
fn modules_that_are_read(rt: HostRuntime) {
    check_all(&rt, rt.alloc(), &READ);
}

// A default delay gives no turn-off delay, and gates may write one beside it.
const DRIVERS: &[u8] = b"module m; bufif1 g(n,d,c); bufif1 #(2,3,5) h(n,d,c); endmodule";

// A text, the delay of gates without one, and what the text says or its fault.
const WITH_A_DEFAULT_DELAY: [(&[u8], Option<u32>, &str); 6] = [
    (
        NETLIST,
        Some(2),
        "m: <a <b >y t / NAND2_1=nand #(2,2) t a b / $1=not #(2,2) y t",
    ),
    (NETLIST, Some(0), "line 4: 11 ZeroDelay"),
    (NETLIST, Some(1_000_001), "line 4: 11 DelayTooLarge"),
    (
        OF_AN_AND,
        Some(2),
        "m: <a <b >y t / AND2_1=and #(2,2) t a b / $1=not #(2,2) y t",
    ),
    (BUFFER, Some(0), "m: <a >y / g=buf #(3,3) y a"),
    (
        DRIVERS,
        Some(4),
        "m: n d c / g=bufif1 #(4,4) n d c / h=bufif1 #(2,3,5) n d c",
    ),
];

#[test]
fn netlist_with_a_default_delay(rt: HostRuntime) {
    for (text, default, want) in WITH_A_DEFAULT_DELAY {
        check(&rt, rt.alloc(), text, default, want);
    }
}

#[test]
fn unit_of_a_directive(rt: HostRuntime) {
    let text = b"`timescale 10 ps/1fs module m; endmodule `timescale 10ps / 10 ps";
    let read = modules(rt.alloc(), NameHasher::fixed(), text, None).expect(&rt, "a module");
    check_unit(&rt, &read);
    drop(read);
}

// Where the module at a place begins.
fn start_at(read: &Modules, place: usize) -> Option<u32> {
    let (_, module) = read.at(place)?;
    Some(module.start())
}

fn check_unit(rt: &impl Abort, read: &Modules) {
    let unit = TimeUnit {
        magnitude: Magnitude::Ten,
        unit: Unit::Picosecond,
    };
    equal(rt, "unit", read.unit(), Some(unit));
    equal(rt, "count", read.count(), 1);
    equal(rt, "start", start_at(read, 0), Some(21));
}

#[test]
fn nothing_in_a_text_without_bytes(rt: HostRuntime) {
    check(&rt, rt.alloc(), b"", Some(2), "");
}
