//! The names of gates, and which of them are taken.

ghost use Rattle.std.specs.Prelude.{◌≡◌, ◌++◌, IfOk, OnOk};
ghost use Rattle.vtext.specs.GateNames.{gate_bytes, instance_bytes, is_name_taken, is_part_taken, numbered, with_name_taken, with_parts_taken};
ghost use Rattle.vtext.specs.kept.Readings.{view};

use crate::draft::Draft;
use crate::gate::{Gate, InstanceName};
use crate::names::Names;
use std::alloc::{AllocError, Global};

/// The name of an instance.
pub fn instance_text(
    alloc: Global,
    names: &Names,
    instance: InstanceName,
) -> Result<Vec<u8>, AllocError>
    ensures { IfOk result (λ text. text.items ≡ instance_bytes names.now instance) }
{
    match instance {
        InstanceName::Written(name) => Vec::from_slice(alloc, names.text(name)),
        InstanceName::Unnamed(number) => numbered(alloc, &[], number),
    }
}

/// A dollar sign and a number behind these bytes.
fn numbered(alloc: Global, base: &[u8], number: u64) -> Result<Vec<u8>, AllocError>
    ensures { IfOk result (λ text. text.items ≡ base.now ++ numbered number) }
{
    let mut text = Vec::from_slice(alloc, base)?;
    let number = format!(in alloc; "${number}")?;
    text.extend_from_slice(number.as_bytes())?;
    Ok(text)
}

/// The name of a gate (own): that of its instance, and `$` and the number of its output where the instance has several.
pub fn gate_name(alloc: Global, names: &Names, gate: &Gate) -> Result<Vec<u8>, AllocError>
    ensures { IfOk result (λ text. text.items ≡ gate_bytes names.now gate.now) }
{
    let base = instance_text(alloc, names, gate.instance())?;
    match gate.part() {
        Some(part) => numbered(alloc, base.as_slice(), part as u64),
        None => Ok(base),
    }
}

impl Draft {
    /// Whether a gate or an instance has this name.
    pub fn is_name_taken(&self, names: &Names, text: &[u8]) -> bool
        ensures { result ≡ is_name_taken names.now (view self.now).taken text.now }
    {
        match names.find(text) {
            Some(name) => self.is_taken(name),
            None => false,
        }
    }

    /// Whether a gate or an instance has the name of one of the first so many outputs.
    pub fn is_part_taken(
        &self,
        alloc: Global,
        names: &Names,
        base: &[u8],
        count: usize,
    ) -> Result<bool, AllocError>
        ensures { IfOk result (λ taken. taken ≡ is_part_taken names.now (view self.now).taken base.now count) }
    {
        let mut taken = false;
        for part in 0..count {
            let text = numbered(alloc, base, part as u64 + 1)?;
            taken = taken || self.is_name_taken(names, text.as_slice());
        }
        Ok(taken)
    }

    /// Takes this name for a gate, where the text writes it somewhere.
    pub fn take_text(&mut self, names: &Names, text: &[u8]) -> Result<(), AllocError>
        ensures { OnOk result (view self.new ≡ record (view self.old) { taken = with_name_taken names.now (view self.old).taken text.now }) }
    {
        match names.find(text) {
            Some(name) => {
                self.take_name(name)?;
                Ok(())
            }
            None => Ok(()),
        }
    }

    /// Takes the names of the first so many outputs.
    pub fn take_parts(
        &mut self,
        alloc: Global,
        names: &Names,
        base: &[u8],
        count: usize,
    ) -> Result<(), AllocError>
        ensures { OnOk result (view self.new ≡ record (view self.old) { taken = with_parts_taken names.now (view self.old).taken base.now count }) }
    {
        for part in 0..count {
            let text = numbered(alloc, base, part as u64 + 1)?;
            self.take_text(names, text.as_slice())?;
        }
        Ok(())
    }
}
