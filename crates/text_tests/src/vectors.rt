//! Vectors, as the first pass reads them. One is shown as `NAME[LEFT:RIGHT]`, and a bit as `NAME[INDEX]`.

use crate::modules::{Case, check_all};

const RANGES: [Case<'static>; 16] = [
    ("module m; wire [3:0] a; endmodule", "m: a[3:0]:wire"),
    ("module m; wire[3:0]a;endmodule", "m: a[3:0]:wire"),
    (
        "module m; wire (* : *) [ 3 /* ] */ : 0_0\n] \\a ; endmodule",
        "m: a[3:0]:wire",
    ),
    ("module m; wire [0:3] \\[a ; endmodule", "m: [a[0:3]:wire"),
    // All names of an item have the range, and none of the next one.
    (
        "module m; wand [3:0] a, b; wor c; triand [7:7] d; wire e; endmodule",
        "m: a[3:0]:wand b[3:0]:wand c:wor d[7:7]:triand e:wire",
    ),
    (
        "module m(a,b,c); input [1:0] c, a; output b; endmodule",
        "m: <a[1:0] >b <c[1:0]",
    ),
    (
        "module m(a,b); output wor [0:1] b; input tri [2:1] a; endmodule",
        "m: <a[2:1]:tri >b[0:1]:wor",
    ),
    // In a header a bare name has the range of the last declaration, if it has one.
    (
        "module m(input [3:0] a, b, output wand c, d, input [0:1] e); endmodule",
        "m: <a[3:0] <b[3:0] >c:wand >d:wand <e[0:1]",
    ),
    (
        "module m(output tri [2:2] a, b, input c, d); wire e; endmodule",
        "m: >a[2:2]:tri >b[2:2]:tri <c <d e:wire",
    ),
    (
        "module m(input [1:0] a); wire b; not #1 (c,b); endmodule",
        "m: <a[1:0] b:wire c / $1=not #(1,1) c b",
    ),
    // The greatest bounds, and numbers in other forms.
    (
        "module m; wire [65535:0] a; wire [0:65_535] b; endmodule",
        "m: a[65535:0]:wire b[0:65535]:wire",
    ),
    (
        "module m; wire [0065535:65534] a; endmodule",
        "m: a[65535:65534]:wire",
    ),
    // Each module has its own.
    (
        "module m; wire [1:0] a; endmodule module n; wire a; endmodule module o; wire [0:1] a; endmodule",
        "m: a[1:0]:wire | n: a:wire | o: a[0:1]:wire",
    ),
    (
        "module m(input [1:0] a); endmodule module n(input a); endmodule module o; not #1 g(a,a); endmodule",
        "m: <a[1:0] | n: <a | o: a / g=not #(1,1) a a",
    ),
    // A vector stands where its name appears first.
    (
        "module m(b); not #1 g(n,n); wire [1:0] a; wire c; output [1:0] b; endmodule",
        "m: >b[1:0] n a[1:0]:wire c:wire / g=not #(1,1) n n",
    ),
    (
        "module m; h u(c); wire [1:0] a; not #1 g(d,a[0]); endmodule",
        "m: c a[1:0]:wire d / g=not #(1,1) d a[0] + u=h c",
    ),
];

#[test]
fn ranges_of_declarations(rt: HostRuntime) {
    check_all(&rt, rt.alloc(), &RANGES);
}

const TWICE: [Case<'static>; 6] = [
    // A direction and a net declaration of one name, with the same range.
    (
        "module m(a); input [1:0] a; wire [1:0] a; endmodule",
        "m: <a[1:0]:wire",
    ),
    (
        "module m(a); wand [01:0_0] a; output [1:0] a; endmodule",
        "m: >a[1:0]:wand",
    ),
    (
        "module m(input [0:0] a); wor [0:0] a; endmodule",
        "m: <a[0:0]:wor",
    ),
    (
        "module m(a,b); input [1:0] a, b; wire [1:0] b, a, c; endmodule",
        "m: <a[1:0]:wire <b[1:0]:wire c[1:0]:wire",
    ),
    // A bare name in a header shares what was written.
    (
        "module m(input [1:0] a, b); wire [1:0] b; endmodule",
        "m: <a[1:0] <b[1:0]:wire",
    ),
    // Another module may declare the name anew.
    (
        "module m(input [1:0] a); endmodule module n(a); input [0:1] a; wire [0:1] a; endmodule",
        "m: <a[1:0] | n: <a[0:1]:wire",
    ),
];

#[test]
fn two_declarations(rt: HostRuntime) {
    check_all(&rt, rt.alloc(), &TWICE);
}

const USES: [Case<'static>; 10] = [
    // Indexes that are in the range.
    (
        "module m; wire [3:1] a; nor #1 g(y,a[3],a[1],a[2]); endmodule",
        "m: a[3:1]:wire y / g=nor #(1,1) y a[3] a[1] a[2]",
    ),
    (
        "module m; wire [1:3] a; buf #1 g(a[3],a[1],a [ 0_2 ]); endmodule",
        "m: a[1:3]:wire / g$1=buf #(1,1) a[3] a[2] / g$2=buf #(1,1) a[1] a[2]",
    ),
    (
        "module m; wire [65535:0] a; not #1 (a[65535],a[00]); endmodule",
        "m: a[65535:0]:wire / $1=not #(1,1) a[65535] a[0]",
    ),
    (
        "module m(input [1:0] a, output [5:5] y); bufif0 #2 g(y[5],1'b1,a[1]); endmodule",
        "m: <a[1:0] >y[5:5] / g=bufif0 #(2,2) y[5] 1 a[1]",
    ),
    (
        "module m; wire [0:0] \\a[0] ; not #1 g(y,\\a[0] [0]); endmodule",
        "m: a[0][0:0]:wire y / g=not #(1,1) y a[0][0]",
    ),
    (
        "module m; wire [1:0] a; h u(a[1],,n,a[0]), v(.p(a[0]),.q()); endmodule",
        "m: a[1:0]:wire n + u=h a[1] - n a[0] + v=h .p=a[0] .q=-",
    ),
    // White space may stand before an index.
    (
        "module m; wire [3:0] v; not #1 g(y,v // v\n[3]); endmodule",
        "m: v[3:0]:wire y / g=not #(1,1) y v[3]",
    ),
    (
        "module m; wire [0:0] v; not #1 g(y,v[0]); endmodule",
        "m: v[0:0]:wire y / g=not #(1,1) y v[0]",
    ),
    // In a connection a vector may stand without an index.
    (
        "module m; wire [3:0] v; h u(v,,v,v[0]), w(.p(v),.q(v[3])); endmodule",
        "m: v[3:0]:wire + u=h v - v v[0] + w=h .p=v .q=v[3]",
    ),
    (
        "module m(input [0:0] v); m u(v); endmodule",
        "m: <v[0:0] + u=m v",
    ),
];

#[test]
fn uses_of_vectors(rt: HostRuntime) {
    check_all(&rt, rt.alloc(), &USES);
}

const NAMES: [Case<'static>; 14] = [
    // Names that no bit of a vector has.
    (
        "module m; wire [3:0] a; wire \\a[4] ; endmodule",
        "m: a[3:0]:wire a[4]:wire",
    ),
    (
        "module m; wire \\a[4] ; wire [3:0] a; endmodule",
        "m: a[4]:wire a[3:0]:wire",
    ),
    (
        "module m; wire \\a[0] ; wire [1:2] a; endmodule",
        "m: a[0]:wire a[1:2]:wire",
    ),
    (
        "module m; wire [3:0] a; wire \\a[01] , \\a[00] , \\a[] , \\a[0_0] , \\a[0 , \\a[0]0 , \\a0] , \\a[0]] ; endmodule",
        "m: a[3:0]:wire a[01]:wire a[00]:wire a[]:wire a[0_0]:wire a[0:wire a[0]0:wire a0]:wire a[0]]:wire",
    ),
    (
        "module m; wire \\a[01] , \\a[x] ; wire [3:0] a; endmodule",
        "m: a[01]:wire a[x]:wire a[3:0]:wire",
    ),
    (
        "module m; wire [65535:0] a; wire \\a[65536] , \\a[4294967296] ; endmodule",
        "m: a[65535:0]:wire a[65536]:wire a[4294967296]:wire",
    ),
    (
        "module m; wire a; wire \\a[0] ; endmodule",
        "m: a:wire a[0]:wire",
    ),
    (
        "module m; wire \\a[0] ; not #1 g(a,b); endmodule",
        "m: a[0]:wire a b / g=not #(1,1) a b",
    ),
    (
        "module m; wire [1:0] aa; wire \\a[0] , \\[0] ; endmodule",
        "m: aa[1:0]:wire a[0]:wire [0]:wire",
    ),
    // A use of such a name.
    (
        "module m; wire [1:0] a; not #1 g(\\a[2] ,a[1]), (a[0],\\a[2] ); endmodule",
        "m: a[1:0]:wire a[2] / g=not #(1,1) a[2] a[1] / $1=not #(1,1) a[0] a[2]",
    ),
    // A bare name in a header is a vector too, with bits of other names.
    (
        "module m(input [1:0] a, \\a[0] ); endmodule",
        "m: <a[1:0] <a[0][1:0]",
    ),
    // A direction that follows a net declaration asks for no name anew.
    (
        "module m(a); wire [1:0] a; wire \\a[2] ; input [1:0] a; endmodule",
        "m: <a[1:0]:wire a[2]:wire",
    ),
    // Gates, instances, ports of others and other modules have names of their own.
    (
        "module m; wire [1:0] a; not #1 \\a[0] (y,z); h \\a[1] (.\\a[0] (y)); endmodule",
        "m: a[1:0]:wire y z / a[0]=not #(1,1) y z + a[1]=h .a[0]=y",
    ),
    (
        "module m; wire [1:0] a; endmodule module \\a[0] ; wire \\a[0] ; endmodule",
        "m: a[1:0]:wire | a[0]: a[0]:wire",
    ),
];

#[test]
fn names_beside_bits(rt: HostRuntime) {
    check_all(&rt, rt.alloc(), &NAMES);
}
