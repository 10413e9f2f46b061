//! Gate items and their instances.

ghost use Rattle.std.specs.Prelude.{◌≡◌, ◌<◌, ◌-◌, ◌^◌, ◌++◌, [], ◌∷◌, not, IfOk, OnOk};
ghost use Rattle.vtext.specs.Instances.{completed, gate_of, gates_of, instance_name, is_made_taken, is_own_taken, part_gates, with_made_taken, with_own_taken};
ghost use Rattle.vtext.specs.GateNames.{is_taken};
ghost use Rattle.vtext.specs.Notes.{name_instance};
ghost use Rattle.vtext.specs.kept.Readings.{view};

use crate::draft::Draft;
use crate::gate::{Gate, InstanceName, Terminal};
use crate::gate_names::instance_text;
use crate::names::Names;
use crate::terminals::{part_count, split};
use smallvec::SmallVec;
use std::alloc::{AllocError, Global};
use std::mem;

impl Draft {
    /// What the instance is called that is being read.
    pub fn instance_name(&self) -> InstanceName
        requires { (view self.now).unnamed < 2 ^ 64 - 1 }
        ensures { result ≡ instance_name (view self.now) }
    {
        match self.instance.name {
            Some(name) => InstanceName::Written(name),
            None => InstanceName::Unnamed(self.module.unnamed + 1),
        }
    }

    fn is_own_taken(
        &self,
        alloc: Global,
        names: &Names,
        instance: InstanceName,
    ) -> Result<bool, AllocError>
        ensures { IfOk result (λ taken. taken ≡ is_own_taken names.now (view self.now).taken instance) }
    {
        match instance {
            InstanceName::Written(_) => Ok(false),
            InstanceName::Unnamed(_) => {
                let text = instance_text(alloc, names, instance)?;
                Ok(self.is_name_taken(names, text.as_slice()))
            }
        }
    }

    /// Whether a name is taken that is made for an instance of so many outputs.
    pub fn is_made_taken(
        &self,
        alloc: Global,
        names: &Names,
        instance: InstanceName,
        outputs: usize,
    ) -> Result<bool, AllocError>
        ensures { IfOk result (λ taken. taken ≡ is_made_taken names.now (view self.now).taken instance outputs) }
    {
        let own = self.is_own_taken(alloc, names, instance)?;
        let count = part_count(outputs);
        if own || count == 0 {
            return Ok(own);
        }
        let base = instance_text(alloc, names, instance)?;
        self.is_part_taken(alloc, names, base.as_slice(), count)
    }

    fn take_own(
        &mut self,
        alloc: Global,
        names: &Names,
        instance: InstanceName,
    ) -> Result<(), AllocError>
        ensures { OnOk result (view self.new ≡ record (view self.old) { taken = with_own_taken names.now (view self.old).taken instance }) }
    {
        match instance {
            InstanceName::Written(_) => Ok(()),
            InstanceName::Unnamed(_) => {
                let text = instance_text(alloc, names, instance)?;
                self.take_text(names, text.as_slice())
            }
        }
    }

    fn take_made(
        &mut self,
        alloc: Global,
        names: &Names,
        instance: InstanceName,
        outputs: usize,
    ) -> Result<(), AllocError>
        ensures { OnOk result (view self.new ≡ record (view self.old) { taken = with_made_taken names.now (view self.old).taken instance outputs }) }
    {
        self.take_own(alloc, names, instance)?;
        let count = part_count(outputs);
        if count == 0 {
            return Ok(());
        }
        let base = instance_text(alloc, names, instance)?;
        self.take_parts(alloc, names, base.as_slice(), count)
    }

    fn add_gate(
        &mut self,
        alloc: Global,
        instance: InstanceName,
        part: Option<usize>,
        inputs: &[Terminal],
        output: Terminal,
    ) -> Result<(), AllocError>
        ensures { OnOk result (view self.new ≡ record (view self.old) { gates = (view self.old).gates ++ gate_of (view self.old) instance part inputs.now output ∷ [] }) }
    {
        let inputs = SmallVec::from_slice(alloc, inputs)?;
        let gate = Gate::new(
            self.item.kind,
            self.item.delays,
            instance,
            part,
            output,
            inputs,
        );
        self.module.gates.push(gate)?;
        Ok(())
    }

    fn add_parts(
        &mut self,
        alloc: Global,
        instance: InstanceName,
        inputs: &[Terminal],
        outputs: &[Terminal],
    ) -> Result<(), AllocError>
        ensures { OnOk result (view self.new ≡ record (view self.old) { gates = (view self.old).gates ++ part_gates (view self.old) instance inputs.now 1 outputs.now }) }
    {
        for (i, output) in outputs.iter().enumerate() {
            self.add_gate(alloc, instance, Some(i + 1), inputs, *output)?;
        }
        Ok(())
    }

    fn add_gates(
        &mut self,
        alloc: Global,
        instance: InstanceName,
        inputs: &[Terminal],
        outputs: &[Terminal],
    ) -> Result<(), AllocError>
        ensures { OnOk result (view self.new ≡ record (view self.old) { gates = (view self.old).gates ++ gates_of (view self.old) instance inputs.now outputs.now }) }
    {
        match outputs {
            [output] => self.add_gate(alloc, instance, None, inputs, *output),
            _ => self.add_parts(alloc, instance, inputs, outputs),
        }
    }

    /// A gate instance is written with this name; answers whether the name was free.
    pub fn name_instance(&mut self, name: u32) -> Result<bool, AllocError>
        ensures named { OnOk result (view self.new ≡ name_instance (view self.old) name) }
        ensures free { IfOk result (λ free. free ≡ not (is_taken (view self.old).taken name)) }
    {
        let free = self.take_name(name)?;
        self.instance.name = Some(name);
        Ok(free)
    }

    /// The instance is complete.
    pub fn complete(&mut self, alloc: Global, names: &Names) -> Result<(), AllocError>
        requires { (view self.old).unnamed < 2 ^ 64 - 1 }
        ensures { OnOk result (view self.new ≡ completed names.now (view self.old)) }
    {
        let instance = self.instance_name();
        let mut terminals = mem::replace(&mut self.instance.terminals, Vec::new(alloc));
        let (outputs, inputs) = split(self.item.kind, terminals.as_slice());
        self.add_gates(alloc, instance, inputs, outputs)?;
        self.take_made(alloc, names, instance, outputs.len())?;
        if self.instance.name.is_none() {
            self.module.unnamed += 1;
        }
        terminals.clear();
        self.instance.terminals = terminals;
        Ok(())
    }
}
