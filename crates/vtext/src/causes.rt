//! Why what has been read refuses a word that the grammar admits.

ghost use Rattle.std.specs.Prelude.{◌≡◌, ◌<◌, ◌-◌, ◌^◌, false, IfOk};
ghost use Rattle.std.specs.List.{list_any};
ghost use Rattle.std.specs.Option.{option_map_or};
ghost use Rattle.vtext.specs.Bits.{bit_names, is_clash};
ghost use Rattle.vtext.specs.Nets.{is_undirected, net_of};
ghost use Rattle.vtext.specs.Ranges.{has_bit};
ghost use Rattle.vtext.specs.Causes.{bound_cause, completed_cause, declared_again, declared_cause, default_cause, delay_cause, directed_again, direction_cause, end_cause, gate_cause, header_cause, index_cause, inline_cause, instance_cause, is_hash, is_index, misfit, module_cause, net_cause, new_cause, port_cause, same_range, terminal_cause, use_cause, when};
ghost use Rattle.vtext.specs.kept.Readings.{view};

use crate::bits::BitName;
use crate::cause::Cause;
use crate::draft::Draft;
use crate::names::Names;
use crate::net::Net;
use crate::range::{MAX_INDEX, Range};
use crate::terminals::{is_arity_wrong, is_constant_driven, split};
use crate::word::Word;
use fourstate::{MAX_DELAY, NetKind};
use std::alloc::{AllocError, Global};

/// Why a word is refused that can't stand.
pub fn misfit(word: Word) -> Cause
    ensures { result ≡ misfit word }
{
    match word {
        Word::Stray => Cause::Byte,
        Word::Refused => Cause::Unsupported,
        _ => Cause::Syntax,
    }
}

fn when(holds: bool, cause: Cause) -> Option<Cause>
    ensures { result ≡ when holds cause }
{
    if holds { Some(cause) } else { None }
}

/// Why a delay is refused.
pub fn delay_cause(time: u32) -> Option<Cause>
    ensures { result ≡ delay_cause time }
{
    if time == 0 {
        Some(Cause::ZeroDelay)
    } else {
        when(u64::from(time) > MAX_DELAY, Cause::DelayTooLarge)
    }
}

fn default_cause(default: Option<u32>) -> Option<Cause>
    ensures { result ≡ default_cause default }
{
    match default {
        Some(time) => delay_cause(time),
        None => Some(Cause::ZeroDelay),
    }
}

fn is_hash(next: Option<Word>) -> bool
    ensures { result ≡ is_hash next }
{
    match next {
        Some(Word::Hash) => true,
        _ => false,
    }
}

/// Why the word of a gate kind is refused, which is followed by this one.
pub fn gate_cause(default: Option<u32>, next: Option<Word>) -> Option<Cause>
    ensures { result ≡ gate_cause default next }
{
    if is_hash(next) {
        None
    } else {
        default_cause(default)
    }
}

/// Why a bound of a range, or an index, is refused, whatever the net is.
pub fn bound_cause(number: u32) -> Option<Cause>
    ensures { result ≡ bound_cause number }
{
    when(number > MAX_INDEX, Cause::TooMany)
}

/// Whether this word begins an index.
pub fn is_index(next: Option<Word>) -> bool
    ensures { result ≡ is_index next }
{
    match next {
        Some(Word::OpenBracket) => true,
        _ => false,
    }
}

fn same_range(a: Option<Range>, b: Option<Range>) -> bool
    ensures { result ≡ same_range a b }
{
    match (a, b) {
        (None, None) => true,
        (Some(a), Some(b)) => a.left == b.left && a.right == b.right,
        _ => false,
    }
}

fn directed_again(kind: Option<NetKind>, net: Net) -> Option<Cause>
    ensures { result ≡ directed_again kind net }
{
    if !net.port {
        return Some(Cause::Syntax);
    }
    let again = net.direction.is_some() || net.implicit || (kind.is_some() && net.kind.is_some());
    when(again, Cause::DuplicateName)
}

fn declared_again(net: Net) -> Option<Cause>
    ensures { result ≡ declared_again net }
{
    when(net.kind.is_some() || net.implicit, Cause::DuplicateName)
}

fn any_undirected(nets: &[Net]) -> bool
    ensures { result ≡ list_any is_undirected nets.now }
{
    nets.iter().any(|net| net.is_undirected())
}

impl Draft {
    /// Why a module may not have a name.
    pub fn module_cause(&self, name: u32) -> Option<Cause>
        ensures { result ≡ module_cause (view self.now) name }
    {
        when(self.modules.contains_key(&name), Cause::DuplicateName)
    }

    /// Why a header refuses the name of a port.
    pub fn header_cause(&self, name: u32) -> Option<Cause>
        ensures { result ≡ header_cause (view self.now) name }
    {
        when(self.net(name).is_some(), Cause::DuplicateName)
    }

    fn is_clash(&self, names: &Names, bits: &[BitName], name: u32, range: Option<Range>) -> bool
        requires { bits.now ≡ bit_names names.now }
        ensures { result ≡ is_clash names.now (view self.now).nets name range }
    {
        match range {
            Some(range) => self.has_named_bit(bits, name, range),
            None => self.is_named_bit(names, name),
        }
    }

    fn new_cause(
        &self,
        names: &Names,
        bits: &[BitName],
        name: u32,
        range: Option<Range>,
    ) -> Option<Cause>
        requires { bits.now ≡ bit_names names.now }
        ensures { result ≡ new_cause names.now (view self.now) name range }
    {
        when(
            self.is_clash(names, bits, name, range),
            Cause::DuplicateName,
        )
    }

    fn declared_cause(&self, names: &Names, bits: &[BitName], name: u32, net: Net) -> Option<Cause>
        requires { bits.now ≡ bit_names names.now }
        ensures { result ≡ declared_cause names.now (view self.now) name net }
    {
        let range = self.declaration.range;
        if net.is_used() {
            when(!same_range(range, net.range), Cause::WidthMismatch)
        } else {
            self.new_cause(names, bits, name, range)
        }
    }

    /// Why a header of the inline form refuses the name of a port.
    pub fn inline_cause(&self, names: &Names, bits: &[BitName], name: u32) -> Option<Cause>
        requires { bits.now ≡ bit_names names.now }
        ensures { result ≡ inline_cause names.now (view self.now) name }
    {
        match self.header_cause(name) {
            Some(cause) => Some(cause),
            None => self.new_cause(names, bits, name, self.declaration.range),
        }
    }

    /// Why a terminal may not name a net of which this was said.
    pub fn use_cause(&self, names: &Names, name: u32, said: Option<Net>) -> Option<Cause>
        requires { said ≡ net_of (view self.now).nets name }
        ensures { result ≡ use_cause names.now (view self.now) name }
    {
        if said.unwrap_or(Net::BLANK).is_used() {
            return None;
        }
        when(self.is_named_bit(names, name), Cause::DuplicateName)
    }

    /// Why a terminal of a gate may not be a net, without an index, of which this was said.
    pub fn terminal_cause(&self, names: &Names, name: u32, said: Option<Net>) -> Option<Cause>
        requires { said ≡ net_of (view self.now).nets name }
        ensures { result ≡ terminal_cause names.now (view self.now) name }
    {
        if let Some(cause) = self.use_cause(names, name, said) {
            return Some(cause);
        }
        when(said?.range.is_some(), Cause::WidthMismatch)
    }

    /// Why an index is refused.
    pub fn index_cause(&self, number: u32) -> Option<Cause>
        ensures { result ≡ index_cause (view self.now) number }
    {
        if let Some(cause) = bound_cause(number) {
            return Some(cause);
        }
        when(!self.has_bit(number as u16), Cause::WidthMismatch)
    }

    fn has_bit(&self, index: u16) -> bool
        ensures { result ≡ option_map_or (λ net. has_bit net.range index) (net_of (view self.now).nets (view self.now).indexed) false }
    {
        match self.net(self.indexed) {
            Some(net) => net.has_bit(index),
            None => false,
        }
    }

    /// Why no item may begin with a direction.
    pub fn direction_cause(&self) -> Option<Cause>
        ensures { result ≡ direction_cause (view self.now) }
    {
        when(self.module.inline, Cause::Syntax)
    }

    #[tactic(auto, using(crate::proofs::NameLemmas::any_mapped))]
    fn has_undirected(&self) -> bool
        ensures { result ≡ list_any (λ net. is_undirected net.1) (view self.now).nets }
    {
        any_undirected(self.module.nets.values().as_slice())
    }

    /// Why the module may not end.
    pub fn end_cause(&self) -> Option<Cause>
        ensures { result ≡ end_cause (view self.now) }
    {
        when(self.has_undirected(), Cause::Syntax)
    }

    /// Why a port declaration refuses a name.
    pub fn port_cause(&self, names: &Names, bits: &[BitName], name: u32) -> Option<Cause>
        requires { bits.now ≡ bit_names names.now }
        ensures { result ≡ port_cause names.now (view self.now) name }
    {
        let Some(net) = self.net(name) else {
            return Some(Cause::Syntax);
        };
        match directed_again(self.declaration.kind, net) {
            Some(cause) => Some(cause),
            None => self.declared_cause(names, bits, name, net),
        }
    }

    /// Why a net declaration refuses a name, of which this was said.
    pub fn net_cause(
        &self,
        names: &Names,
        bits: &[BitName],
        name: u32,
        said: Option<Net>,
    ) -> Option<Cause>
        requires bits { bits.now ≡ bit_names names.now }
        requires said { said ≡ net_of (view self.now).nets name }
        ensures { result ≡ net_cause names.now (view self.now) name }
    {
        let net = said.unwrap_or(Net::BLANK);
        match declared_again(net) {
            Some(cause) => Some(cause),
            None => self.declared_cause(names, bits, name, net),
        }
    }

    /// Why a gate instance, or one of a module, may not have a name.
    pub fn instance_cause(&self, name: u32) -> Option<Cause>
        ensures { result ≡ instance_cause (view self.now) name }
    {
        when(self.is_taken(name), Cause::DuplicateName)
    }

    /// Why the gate instance may not end.
    pub fn completed_cause(&self, alloc: Global, names: &Names) -> Result<Option<Cause>, AllocError>
        requires { (view self.now).unnamed < 2 ^ 64 - 1 }
        ensures { IfOk result (λ cause. cause ≡ completed_cause names.now (view self.now)) }
    {
        let kind = self.item.kind;
        let terminals = self.instance.terminals.as_slice();
        if is_arity_wrong(kind, terminals) {
            return Ok(Some(Cause::WrongArity));
        }
        if is_constant_driven(kind, terminals) {
            return Ok(Some(Cause::PortKind));
        }
        let (outputs, _) = split(kind, terminals);
        let taken = self.is_made_taken(alloc, names, self.instance_name(), outputs.len())?;
        Ok(when(taken, Cause::DuplicateName))
    }
}
