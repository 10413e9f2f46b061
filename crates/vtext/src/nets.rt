//! What headers, declarations and terminals say of nets.

ghost use Rattle.std.specs.Prelude.{◌≡◌, OnOk};
ghost use Rattle.vtext.specs.Nets.{net_of};
ghost use Rattle.vtext.specs.Notes.{add_bit, add_terminal, declare_net, declare_port, direct_port, list_port, note_use};
ghost use Rattle.vtext.specs.kept.Readings.{view};

use crate::draft::Draft;
use crate::gate::Terminal;
use crate::net::Net;
use crate::parser_state::Indexed;
use std::alloc::AllocError;

impl Draft {
    /// A header of the older form names a port.
    pub fn list_port(&mut self, name: u32) -> Result<(), AllocError>
        ensures { OnOk result (view self.new ≡ list_port (view self.old) name) }
    {
        self.set_net(name, Net::listed())
    }

    /// A header of the inline form declares a port.
    pub fn declare_port(&mut self, name: u32) -> Result<(), AllocError>
        ensures { OnOk result (view self.new ≡ declare_port (view self.old) name) }
    {
        let net = Net::ported(
            self.declaration.direction,
            self.declaration.kind,
            self.declaration.range,
        );
        self.set_net(name, net)
    }

    /// A port declaration names a net.
    pub fn direct_port(&mut self, name: u32) -> Result<(), AllocError>
        ensures { OnOk result (view self.new ≡ direct_port (view self.old) name) }
    {
        let net = self.net(name).unwrap_or(Net::BLANK);
        let net = net.directed(
            self.declaration.direction,
            self.declaration.kind,
            self.declaration.range,
        );
        self.set_net(name, net)
    }

    /// A net declaration names a net of which this was said.
    pub fn declare_net(&mut self, name: u32, said: Option<Net>) -> Result<(), AllocError>
        requires { said ≡ net_of (view self.old).nets name }
        ensures { OnOk result (view self.new ≡ declare_net (view self.old) name) }
    {
        let mut net = said.unwrap_or(Net::BLANK);
        net.kind = self.declaration.kind;
        net.range = self.declaration.range;
        self.set_net(name, net)
    }

    /// A net of which this was said is used, by a terminal or a port connection.
    pub fn note_net(&mut self, name: u32, said: Option<Net>) -> Result<(), AllocError>
        requires { said ≡ net_of (view self.old).nets name }
        ensures { OnOk result (view self.new ≡ note_use (view self.old) name) }
    {
        let net = said.unwrap_or(Net::BLANK);
        if net.is_used() {
            return Ok(());
        }
        self.set_net(name, net.used())
    }

    /// A gate instance has a terminal more.
    pub fn add_terminal(&mut self, terminal: Terminal) -> Result<(), AllocError>
        ensures { OnOk result (view self.new ≡ add_terminal (view self.old) terminal) }
    {
        self.instance.terminals.push(terminal)?;
        Ok(())
    }

    /// The bit of the net whose index was read is a terminal, or connected to a port.
    pub fn add_bit(&mut self, of: Indexed, index: u16) -> Result<(), AllocError>
        ensures { OnOk result (view self.new ≡ add_bit of (view self.old) index) }
    {
        let bit = Terminal::Bit(self.indexed, index);
        match of {
            Indexed::Gate => self.add_terminal(bit),
            Indexed::Ordered | Indexed::Named => self.add_connection(Some(bit)),
        }
    }
}
