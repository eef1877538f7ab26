// `finish_mode_switch`: the hold frame after a write of the mode.
#![tactic(auto)]

ghost use Rattle.std.specs.Prelude.{◌≡◌};
ghost use Rattle.switch_finish.specs.Finish as Spec;

use float::F32Bits;
use protocol_hold::ControlMode;

// A hold frame is wanted, or the switch goes on to verify.
// As a flag it would say neither.
#[derive(Clone, Copy)]
pub enum Finishing {
    Holds,
    Done,
}

// The hold frame, if the mode and what is known of the position want one.
pub fn finish(mode: ControlMode, position: Option<F32Bits>) -> Finishing
    ensures { result ≡ Spec.finish mode position }
{
    match (mode, position) {
        (ControlMode::Mit | ControlMode::Vel, _) => Finishing::Holds,
        (ControlMode::PosVel | ControlMode::ForcePos, Some(_)) => Finishing::Holds,
        (ControlMode::PosVel | ControlMode::ForcePos, None) => Finishing::Done,
    }
}
