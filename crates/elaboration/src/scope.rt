//! A scope of a design.

ghost use Rattle.std.specs.Prelude.{◌≡◌, slice_get};
ghost use Rattle.vtext.specs.declared.gate.Terminal.TheVariants.{Bit};
ghost use Rattle.elaboration.specs.kept.Numbered.{ref_at, ref_for, slot_for};

use crate::node::{NodeRef, Slot};
use crate::widths::range_of;
use fourstate::Value;
use std::marker::Model;
use vtext::{Module, Terminal};

/// The module at the top, or an instance of a module somewhere below it (IEEE 1364-2005, 12.4).
#[derive(Drop)]
pub struct Scope<'a> {
    entry: &'a Module,
    path: Vec<u8>,
    slots: Vec<Slot>,
}

impl<'a> Model for Scope<'a> {
    ghost use Rattle.elaboration.specs.kept.Numbered.{PlacedScope};

    ghost Value = { PlacedScope };

    ghost view = { λ a. record { entry = a.entry.now; path = a.path.items; slots = a.slots.items } };
}

impl<'a> Scope<'a> {
    /// A scope of this module, whose names begin so, and whose nets are these.
    pub fn new(entry: &'a Module, path: Vec<u8>, slots: Vec<Slot>) -> Scope<'a>
        ensures { result ≡ record { entry = entry.now; path = path.items; slots = slots.items } }
    {
        Scope { entry, path, slots }
    }

    /// The module.
    pub fn module(&self) -> &'a Module
        ensures { result.now ≡ self.now.entry }
    {
        self.entry
    }

    /// What stands before the names of its nets and gates: nothing at the top, else the instance's name with those of the
    /// instances around it, each with a dot after it.
    pub fn path(&self) -> &[u8]
        ensures { result.now ≡ self.now.path }
    {
        self.path.as_slice()
    }

    /// What the nets of the module are, in the module's order.
    pub fn slots(&self) -> &[Slot]
        ensures { result.now ≡ self.now.slots }
    {
        self.slots.as_slice()
    }

    /// What a terminal in the module is.
    #[inline(always)]
    pub fn node(&self, terminal: Terminal) -> NodeRef
        ensures { result ≡ ref_at self.now terminal }
    {
        match terminal {
            Terminal::Constant(value) => NodeRef::Tied(value),
            Terminal::Net(name) => self.node_of(name),
            Terminal::Bit(name, index) => self.bit_of(name, index),
        }
    }

    /// What the bit of an index is, of the vector of this name.
    #[inline(never)]
    fn bit_of(&self, name: u32, index: u16) -> NodeRef
        ensures { result ≡ ref_at self.now (Bit name index) }
    {
        let range = range_of(self.module(), name);
        self.node_of(name).bit(range, index)
    }

    /// What the net of this name is.
    #[inline(always)]
    fn node_of(&self, name: u32) -> NodeRef
        ensures { result ≡ ref_for self.now name }
    {
        match self.slot_of(name) {
            Some(slot) => slot.node(),
            None => NodeRef::Tied(Value::Unknown),
        }
    }

    #[inline(always)]
    fn slot_of(&self, name: u32) -> Option<Slot>
        ensures { result ≡ slot_for name self.now.entry.nets self.now.slots }
    {
        let place = self.module().net_place(name)?;
        self.slot_at(place)
    }

    #[inline(always)]
    fn slot_at(&self, place: usize) -> Option<Slot>
        ensures { result ≡ slice_get self.now.slots place }
    {
        self.slots.get(place).copied()
    }
}
