//! Modules with instances of modules, and texts of many modules, as the first pass reads them. An instance is shown as
//! ` + NAME=MODULE CONNECTIONS`, with `-` for what is connected to nothing.

use crate::compare::equal;
use crate::modules::{Case, check_all};
use design::NameHasher;
use std::process::Abort;
use vtext::{Direction, Module, Modules, Names, modules};

const ORDERED: [Case<'static>; 9] = [
    ("module m; h u(a,y); endmodule", "m: a y + u=h a y"),
    // Empty places count, but for an empty list.
    ("module m; h u(); endmodule", "m: + u=h"),
    ("module m; h u(,); endmodule", "m: + u=h - -"),
    ("module m; h u(,,); endmodule", "m: + u=h - - -"),
    ("module m; h u(a,,y); endmodule", "m: a y + u=h a - y"),
    ("module m; h u(,a); endmodule", "m: a + u=h - a"),
    ("module m; h u(a,); endmodule", "m: a + u=h a -"),
    ("module m; h u(1'b0,1'Bz,a); endmodule", "m: a + u=h 0 z a"),
    // An item may have several instances.
    (
        "module m; h u(a), v(), w(b,a); endmodule",
        "m: a b + u=h a + v=h + w=h b a",
    ),
];

#[test]
fn connections_by_order(rt: HostRuntime) {
    check_all(&rt, rt.alloc(), &ORDERED);
}

const NAMED: [Case<'static>; 6] = [
    // The names of ports are no nets.
    (
        "module m; h u(.p(a),.q(y)); endmodule",
        "m: a y + u=h .p=a .q=y",
    ),
    ("module m; h u(.p()); endmodule", "m: + u=h .p=-"),
    (
        "module m; h u(.p(),.q(1'bX)); endmodule",
        "m: + u=h .p=- .q=x",
    ),
    // What a name says of the module that has it is not asked here.
    (
        "module m; h u(.p(),.p(a)); endmodule",
        "m: a + u=h .p=- .p=a",
    ),
    (
        "module m; h u(.p(a)), v(a,b); endmodule",
        "m: a b + u=h .p=a + v=h a b",
    ),
    (
        "module m; \\h  \\u+ (.\\p/ (\\a+b )), \\wire (.\\and (c)); endmodule",
        "m: a+b c + u+=h .p/=a+b + wire=h .and=c",
    ),
];

#[test]
fn connections_by_name(rt: HostRuntime) {
    check_all(&rt, rt.alloc(), &NAMED);
}

const NETS: [Case<'static>; 7] = [
    (
        "module m(input a, output y); h u(a,y); endmodule",
        "m: <a >y + u=h a y",
    ),
    // What is declared nowhere is a net from its connection on.
    (
        "module m(y); output y; h u(b,y,c); wire d; endmodule",
        "m: >y b c d:wire + u=h b y c",
    ),
    (
        "module m; wand b; h u(.p(a),.q(b)); endmodule",
        "m: b:wand a + u=h .p=a .q=b",
    ),
    // Instances and gates stand apart; unnamed gates are counted without instances.
    (
        "module m; h u(a); not #1 (b,a); h v(b); not #1 (c,b); endmodule",
        "m: a b c / $1=not #(1,1) b a / $2=not #(1,1) c b + u=h a + v=h b",
    ),
    // A net, an instance and a module may have one name.
    ("module m; m m(m); endmodule", "m: m + m=m m"),
    // A name beside those that are made of a gate, and a port of the name of a net that is declared behind it.
    (
        "module m; buf #1 (y,z,a); h \\$1$3 (); endmodule",
        "m: y z a / $1$1=buf #(1,1) y a / $1$2=buf #(1,1) z a + $1$3=h",
    ),
    (
        "module m; h u(.a()); wire a; endmodule",
        "m: a:wire + u=h .a=-",
    ),
];

#[test]
fn nets_of_connections(rt: HostRuntime) {
    check_all(&rt, rt.alloc(), &NETS);
}

const MANY: [Case<'static>; 7] = [
    ("module m; endmodule module n; endmodule", "m: | n:"),
    (
        "module m; endmodule module \\m+ ; endmodule module M; endmodule",
        "m: | m+: | M:",
    ),
    // A module may stand before or behind its instances.
    (
        "module m; h u(a); endmodule module h(input p); endmodule",
        "m: a + u=h a | h: <p",
    ),
    (
        "module h(input p); endmodule module m; h u(a); endmodule",
        "h: <p | m: a + u=h a",
    ),
    // Each module has names of its own.
    (
        "module m; wire a; not #1 g(a,b), (b,a); endmodule module n; wor b; not #2 g(b,a), (a,b); h u(); endmodule",
        "m: a:wire b / g=not #(1,1) a b / $1=not #(1,1) b a | n: b:wor a / g=not #(2,2) b a / $1=not #(2,2) a b + u=h",
    ),
    (
        "module m(a); input a; endmodule module n(a); output wand a; endmodule module o(input a); endmodule",
        "m: <a | n: >a:wand | o: <a",
    ),
    // Directives stand between them and at the end too.
    (
        "`timescale 1ns/1ps module m; endmodule `timescale 1 ns/10 s module n; endmodule `timescale 1ns/1fs",
        "m: | n:",
    ),
];

#[test]
fn many_modules(rt: HostRuntime) {
    check_all(&rt, rt.alloc(), &MANY);
}

// The module at place 1 is `h`: it begins at 29, its port is an input, and its net stands behind the port.
const TWO: &[u8] = b"module m; h uu(n); endmodule module h(p); wire n; input p; endmodule";

// What a module says of its port and of its net.
fn check_nets(rt: &impl Abort, names: &Names, module: &Module) {
    let (p, n) = (
        names.find(b"p").expect(rt, "p"),
        names.find(b"n").expect(rt, "n"),
    );
    let port = module.net(p).expect(rt, "the port");
    equal(rt, "direction", port.direction, Some(Direction::Input));
    assert!(rt; port.port && !port.implicit);
    equal(rt, "p", module.net_place(p), Some(0));
    equal(rt, "n", module.net_place(n), Some(1));
    let outer = names.find(b"m").expect(rt, "m");
    equal(rt, "m", module.net_place(outer), None);
}

fn check_found(rt: &impl Abort, read: &Modules) {
    let inner = read.names().find(b"h").expect(rt, "h");
    equal(rt, "place", read.place(inner), Some(1));
    let module = read.find(inner).expect(rt, "a module");
    equal(rt, "start", module.start(), 29);
    check_nets(rt, read.names(), module);
}

// A name of a net is that of no module, and there is no place behind the last.
fn check_absent(rt: &impl Abort, read: &Modules) {
    let net = read.names().find(b"n").expect(rt, "n");
    equal(rt, "place", read.place(net), None);
    assert!(rt; read.find(net).is_none());
    assert!(rt; read.at(2).is_none());
    equal(rt, "count", read.count(), 2);
}

// The instance `uu` begins at 12.
fn check_start(rt: &impl Abort, read: &Modules) {
    let (_, module) = read.at(0).expect(rt, "a module");
    equal(rt, "module", module.start(), 0);
    equal(rt, "instances", module.instances().len(), 1);
    for instance in module.instances() {
        equal(rt, "instance", instance.start(), 12);
    }
}

#[test]
fn modules_are_found(rt: HostRuntime) {
    let read = modules(rt.alloc(), NameHasher::fixed(), TWO, None).expect(&rt, "modules");
    check_found(&rt, &read);
    check_absent(&rt, &read);
    check_start(&rt, &read);
    drop(read);
}
