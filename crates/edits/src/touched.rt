//! What lists of edits touched.

ghost use Rattle.std.specs.Prelude.{◌≡◌, ◌++◌, [], OnOk};
ghost use Rattle.edits.specs.kept.Touched.{touched_gates, touched_nets};

use crate::changes::Touch;
use design::{GateKey, NetKey};
use std::alloc::{AllocError, Global};

/// The nets and the gates that a list of edits touched, in the order of the edits. A key stands as often as it was
/// touched, and that of a net or a gate that came and went in the list is there too. A gate that begins or ends to read a
/// net touches itself and not that net.
#[derive(Debug, Drop)]
pub struct Touched {
    /// Nets that came, went or changed, and nets that a gate drives or drove that came, went or was rewired.
    pub nets: Vec<NetKey>,
    /// Gates that came, went or changed.
    pub gates: Vec<GateKey>,
}

impl Touched {
    /// Nothing was touched.
    pub(crate) fn new(alloc: Global) -> Touched
        ensures nets { result.nets.items ≡ [] }
        ensures gates { result.gates.items ≡ [] }
    {
        Touched {
            nets: Vec::new(alloc),
            gates: Vec::new(alloc),
        }
    }

    /// Adds what one change touched.
    pub(crate) fn add(&mut self, touch: Touch) -> Result<(), AllocError>
        ensures nets { OnOk result (self.new.nets.items ≡ self.old.nets.items ++ touched_nets touch) }
        ensures gates { OnOk result (self.new.gates.items ≡ self.old.gates.items ++ touched_gates touch) }
    {
        match touch {
            Touch::Nothing => {}
            Touch::Net(net) => self.nets.push(net)?,
            Touch::Gate(gate) => self.gates.push(gate)?,
            Touch::Driver { gate, output } => {
                self.gates.push(gate)?;
                self.nets.push(output)?;
            }
            Touch::Rewired { gate, from, to } => {
                self.gates.push(gate)?;
                self.nets.push(from)?;
                self.nets.push(to)?;
            }
        }
        Ok(())
    }
}
