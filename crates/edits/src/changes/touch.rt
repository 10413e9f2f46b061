//! What one change touches.

use design::{GateKey, NetKey};

/// What one change touches of a design: outside of it each net, each list of drivers and each gate stays as it was.
#[derive(Clone, Copy, Debug)]
pub(crate) enum Touch {
    Nothing,
    Net(NetKey),
    Gate(GateKey),
    /// A gate that comes or goes, and the net that it drives.
    Driver {
        gate: GateKey,
        output: NetKey,
    },
    /// A gate put at other nets: the net that it drove, and the net that it drives.
    Rewired {
        gate: GateKey,
        from: NetKey,
        to: NetKey,
    },
}
