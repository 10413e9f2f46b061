//! Laws of gates by themselves: each function does nothing, and its contract is the law.

ghost use Rattle.std.specs.Prelude.{◌≡◌, Bool, ℕ, map};
ghost use Rattle.gatestep.specs.Step.{Evaluation, State, due};
ghost use Rattle.design.specs.Connections.{Connection};
ghost use Rattle.design.specs.Netlist.{GateEntry, NetEntry, Netlist};
ghost use Rattle.design.specs.kept.Places.{driver_places};
ghost use Rattle.gateline.specs.kept.Gates.{gate_work_from};
ghost use Rattle.gateline.specs.kept.Line.{is_stirred_by, line_work_from, state_by, task_by};
ghost use Rattle.scratch.specs.Run.{net_at, state_before, terminal_at};
ghost use Rattle.scratch.specs.Work.{inputs_at, is_stirred, task_at};
ghost use Rattle.scratch.specs.kept.Kept.{input_of, input_value, net_from};

use gatestep::Stepper;

/// In the run of a design a gate does what it does by itself where its inputs have the values that it reads there.
pub fn gate_by_itself<S: Stepper>()
    ensures states { (d : Netlist) (g : GateEntry) (t : ℕ) → state_by S.answer g.kind g.delays (inputs_at S.answer d g) t ≡ state_before S.answer d t g }
    ensures tasks { (d : Netlist) (g : GateEntry) (t : ℕ) → task_by S.answer g.kind g.delays (inputs_at S.answer d g) t ≡ task_at S.answer d g t }
    ensures stirred { (d : Netlist) (g : GateEntry) (t : ℕ) → is_stirred_by S.answer g.kind g.delays (inputs_at S.answer d g) t ≡ is_stirred S.answer d g t }
    ensures work { (d : Netlist) (g : GateEntry) (wanted : Evaluation → ℕ → Bool) (a n : ℕ) →
        line_work_from S.answer g.kind g.delays (inputs_at S.answer d g) wanted a n ≡ gate_work_from S.answer d wanted g a n }
{}

/// What an input reads by the place of its net is what it reads by the net's name.
#[tactic(auto, using(crate::proofs::ByPlace::input_is))]
pub fn input_by_place()
    ensures { (d : Netlist) (before : GateEntry → State) (t : ℕ) (connection : Connection) →
        input_value (map (λ n. net_at d before n t) d.nets) (input_of d connection) ≡ terminal_at d before connection t }
{}

/// What a net has from its drivers by their places is what it has from those that name it.
#[tactic(auto, using(crate::proofs::ByPlace::net_is))]
pub fn net_by_places()
    ensures { (d : Netlist) (before : GateEntry → State) (t : ℕ) (n : NetEntry) →
        net_from (map (λ g. (due (before g) t).current) d.gates) t n (driver_places d.gates n.name) ≡ net_at d before n t }
{}
