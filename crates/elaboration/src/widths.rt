//! How many bits what is connected to a port has.

ghost use Rattle.std.specs.Prelude.{◌≡◌};
ghost use Rattle.elaboration.specs.Ports.{is_width_wrong, range_of, width_at};

use vtext::{Module, Net, Range, Terminal};

/// The range of the net of this name, if it is a vector.
pub fn range_of(entry: &Module, name: u32) -> Option<Range>
    ensures { result ≡ range_of entry.now.nets name }
{
    entry.net(name)?.range
}

/// How many bits a terminal in a module has.
fn width_at(entry: &Module, terminal: Terminal) -> usize
    ensures { result ≡ width_at entry.now.nets terminal }
{
    match terminal {
        Terminal::Net(name) => match range_of(entry, name) {
            Some(range) => range.width(),
            None => 1,
        },
        _ => 1,
    }
}

/// Whether something in a module is connected that has another width than the port.
pub fn is_width_wrong(outer: &Module, terminal: Option<Terminal>, port: Net) -> bool
    ensures { result ≡ is_width_wrong outer.now.nets terminal port }
{
    match terminal {
        Some(terminal) => width_at(outer, terminal) != port.width(),
        None => false,
    }
}
