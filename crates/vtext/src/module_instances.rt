//! What items say that instantiate modules.

ghost use Rattle.std.specs.Prelude.{◌≡◌, OnOk};
ghost use Rattle.vtext.specs.Notes.{add_connection, instantiated, name_module_instance};
ghost use Rattle.vtext.specs.kept.Readings.{view};

use crate::draft::Draft;
use crate::gate::Terminal;
use crate::module_instance::{ModuleInstance, PortConnection};
use std::alloc::{AllocError, Global};

impl Draft {
    /// An instance of a module is written with this name, which begins here.
    pub fn name_module_instance(&mut self, start: u32, name: u32) -> Result<(), AllocError>
        ensures { OnOk result (view self.new ≡ name_module_instance (view self.old) start name) }
    {
        self.take_name(name)?;
        self.module_instance.start = start;
        self.module_instance.name = name;
        self.module_instance.port = None;
        self.module_instance.connections.clear();
        Ok(())
    }

    /// A port is connected to this, or to nothing, of which all else is said.
    pub fn add_connection(&mut self, terminal: Option<Terminal>) -> Result<(), AllocError>
        ensures { OnOk result (view self.new ≡ add_connection (view self.old) terminal) }
    {
        let port = self.module_instance.port;
        self.module_instance
            .connections
            .push(PortConnection { port, terminal })?;
        Ok(())
    }

    /// The instance is complete.
    pub fn instantiate(&mut self, alloc: Global) -> Result<(), AllocError>
        ensures { OnOk result (view self.new ≡ instantiated (view self.old)) }
    {
        let draft = &self.module_instance;
        let connections = Vec::from_slice(alloc, draft.connections.as_slice())?;
        let instance = ModuleInstance::new(draft.start, draft.name, draft.of, connections);
        self.module.instances.push(instance)?;
        Ok(())
    }
}
