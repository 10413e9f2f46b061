//! Instances of modules.

ghost use Rattle.std.specs.Prelude.{◌≡◌};

use crate::gate::Terminal;
use std::marker::Model;

/// A port connection of an instance (IEEE 1364-2005, 12.3.3).
#[derive(Clone, Copy, Debug, PartialEq, Eq)]
pub struct PortConnection {
    /// The port, by the number of its name, where the connection names it; without one, the order of connections is that of
    /// the ports.
    pub port: Option<u32>,
    /// What the port is connected to, if anything.
    pub terminal: Option<Terminal>,
}

/// An instance of a module.
#[derive(Debug, Drop)]
pub struct ModuleInstance {
    start: u32,
    name: u32,
    module: u32,
    connections: Vec<PortConnection>,
}

impl Model for ModuleInstance {
    ghost use Rattle.vtext.specs.Modules.{InstanceEntry};

    ghost Value = { InstanceEntry };

    ghost view = { λ a. record { start = a.start; name = a.name; «module» = a.module; connections = a.connections.items } };
}

impl ModuleInstance {
    /// An instance of the module of this name, with its port connections in order.
    pub fn new(
        start: u32,
        name: u32,
        module: u32,
        connections: Vec<PortConnection>,
    ) -> ModuleInstance
        ensures { result ≡ record { start = start; name = name; «module» = «module»; connections = connections.items } }
    {
        ModuleInstance {
            start,
            name,
            module,
            connections,
        }
    }

    /// Where the instance's name begins in the text, from 0.
    pub fn start(&self) -> u32
        ensures { result ≡ self.now.start }
    {
        self.start
    }

    /// The instance's name, by its number.
    pub fn name(&self) -> u32
        ensures { result ≡ self.now.name }
    {
        self.name
    }

    /// The name of the module, by its number.
    pub fn module(&self) -> u32
        ensures { result ≡ self.now.module }
    {
        self.module
    }

    /// The port connections in order.
    pub fn connections(&self) -> &[PortConnection]
        ensures { result.now ≡ self.now.connections }
    {
        self.connections.as_slice()
    }
}
