//! What has been read of a text so far.

ghost use Rattle.std.specs.Prelude.{◌≡◌, [], false, not, IfOk, IsSome, OnOk};
ghost use Rattle.vtext.specs.Nets.{net_of, with_net};
ghost use Rattle.vtext.specs.GateNames.{is_taken, with_taken};
ghost use Rattle.vtext.specs.Notes.{finished};
ghost use Rattle.vtext.specs.Readings.{unread};
ghost use Rattle.vtext.specs.kept.Readings.{view};

use crate::gate::{Gate, Terminal};
use crate::hints::Hints;
use crate::module::Module;
use crate::module_instance::{ModuleInstance, PortConnection};
use crate::net::Net;
use crate::range::Range;
use crate::word::Direction;
use fourstate::{DelayTimes, GateKind, NetKind, TimeUnit};
use indexmap::{IndexMap, IndexSet};
use std::alloc::{AllocError, Global};
use std::mem;

/// What has been read of a text so far: the finished modules, and of each part of the grammar the one that is being read.
#[derive(Drop)]
pub struct Draft {
    /// The unit of the directives.
    pub unit: Option<TimeUnit>,
    /// The finished modules by name.
    pub modules: IndexMap<u32, Module>,
    pub module: ModuleDraft,
    /// Where the nets of that module probably stand.
    pub hints: Hints,
    pub declaration: Declaration,
    pub item: GateItem,
    pub instance: InstanceDraft,
    /// The net of a terminal whose index is being read.
    pub indexed: u32,
    pub module_instance: ModuleInstanceDraft,
}

/// The module that is being read.
#[derive(Drop)]
pub struct ModuleDraft {
    /// Where it begins.
    pub start: u32,
    pub name: u32,
    /// Whether its header is of the inline form.
    pub inline: bool,
    pub nets: IndexMap<u32, Net>,
    pub gates: Vec<Gate>,
    pub instances: Vec<ModuleInstance>,
    /// The names of its gates and instances, by number.
    pub taken: IndexSet<u32>,
    /// How many of its gate instances are unnamed.
    pub unnamed: u64,
}

/// The declaration that is being read: its direction, and the net kind and the range that it writes.
#[derive(Clone, Copy, Debug)]
pub struct Declaration {
    pub direction: Direction,
    pub kind: Option<NetKind>,
    pub range: Option<Range>,
}

/// The gate item that is being read.
#[derive(Clone, Copy, Debug)]
pub struct GateItem {
    pub kind: GateKind,
    pub delays: DelayTimes,
}

/// The gate instance that is being read: its name, if it has one, and the terminals so far.
#[derive(Drop)]
pub struct InstanceDraft {
    pub name: Option<u32>,
    pub terminals: Vec<Terminal>,
}

/// The instance of a module that is being read.
#[derive(Drop)]
pub struct ModuleInstanceDraft {
    /// The module, which the item names.
    pub of: u32,
    /// Where the instance's name begins.
    pub start: u32,
    pub name: u32,
    /// The port of the connection that is being read, if it names one.
    pub port: Option<u32>,
    /// The port connections so far.
    pub connections: Vec<PortConnection>,
}

impl ModuleDraft {
    /// Nothing was read of a module.
    pub fn new(alloc: Global) -> ModuleDraft
        ensures start { result.start ≡ 0 }
        ensures name { result.name ≡ 0 }
        ensures inline { result.inline ≡ false }
        ensures nets { result.nets.entries ≡ [] }
        ensures gates { result.gates.items ≡ [] }
        ensures instances { result.instances.items ≡ [] }
        ensures taken { result.taken.keys ≡ [] }
        ensures unnamed { result.unnamed ≡ 0 }
    {
        ModuleDraft {
            start: 0,
            name: 0,
            inline: false,
            nets: IndexMap::new(alloc),
            gates: Vec::new(alloc),
            instances: Vec::new(alloc),
            taken: IndexSet::new(alloc),
            unnamed: 0,
        }
    }
}

impl Draft {
    /// Nothing was read.
    pub fn new(alloc: Global) -> Draft
        ensures { view result ≡ unread }
    {
        Draft {
            unit: None,
            modules: IndexMap::new(alloc),
            module: ModuleDraft::new(alloc),
            hints: Hints::new(alloc),
            declaration: Declaration {
                direction: Direction::Input,
                kind: None,
                range: None,
            },
            item: GateItem {
                kind: GateKind::And,
                delays: DelayTimes::uniform(0),
            },
            instance: InstanceDraft {
                name: None,
                terminals: Vec::new(alloc),
            },
            indexed: 0,
            module_instance: ModuleInstanceDraft {
                of: 0,
                start: 0,
                name: 0,
                port: None,
                connections: Vec::new(alloc),
            },
        }
    }

    /// What is said of a net so far.
    #[inline(always)]
    pub fn net(&self, name: u32) -> Option<Net>
        ensures { result ≡ net_of (view self.now).nets name }
    {
        if let Some(net) = self.hinted_net(name) {
            return Some(net);
        }
        self.found_net(name)
    }

    /// What is said of a net so far: it is looked for by its hash.
    #[inline(never)]
    fn found_net(&self, name: u32) -> Option<Net>
        ensures { result ≡ net_of (view self.now).nets name }
    {
        self.module.nets.get(&name).copied()
    }

    /// What is said of a net so far, where it stands at the place that is noted.
    #[inline(always)]
    fn hinted_net(&self, name: u32) -> Option<Net>
        ensures { IsSome result → result ≡ net_of (view self.now).nets name }
    {
        let place = self.hints.get(name)?;
        match self.module.nets.get_index(place) {
            Some((key, net)) if *key == name => Some(*net),
            _ => None,
        }
    }

    /// Says this of a net.
    pub fn set_net(&mut self, name: u32, net: Net) -> Result<(), AllocError>
        ensures { OnOk result (view self.new ≡ record (view self.old) { nets = with_net (view self.old).nets name net }) }
    {
        let (place, _) = self.module.nets.insert_full(name, net)?;
        self.hints.note(name, place)?;
        Ok(())
    }

    /// Whether a gate or an instance has this name.
    pub fn is_taken(&self, name: u32) -> bool
        ensures { result ≡ is_taken (view self.now).taken name }
    {
        self.module.taken.contains(&name)
    }

    /// Takes a name for a gate or an instance, and answers whether it was free.
    pub fn take_name(&mut self, name: u32) -> Result<bool, AllocError>
        ensures taken { OnOk result (view self.new ≡ record (view self.old) { taken = with_taken (view self.old).taken name }) }
        ensures free { IfOk result (λ free. free ≡ not (is_taken (view self.old).taken name)) }
    {
        let free = self.module.taken.insert(name)?;
        Ok(free)
    }

    /// The module that is being read is finished.
    pub fn finish(&mut self, alloc: Global) -> Result<(), AllocError>
        ensures { OnOk result (view self.new ≡ finished (view self.old)) }
    {
        let ModuleDraft {
            start,
            name,
            nets,
            gates,
            instances,
            ..
        } = mem::replace(&mut self.module, ModuleDraft::new(alloc));
        let module = Module::new(alloc, start, nets, gates, instances)?;
        self.modules.insert(name, module)?;
        Ok(())
    }
}
