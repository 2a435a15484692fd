//! Runs of calls.
ghost use Rattle.std.specs.Prelude.{map};
ghost use Rattle.rig.specs.Calls.{plan_call};
ghost use Rattle.rig.specs.Abstraction.{state_of};
ghost use Rattle.runs.specs.Run.{IsRun};

use device::Device;
use rig::{Answer, Call, Rig};

/// Makes calls of a rig, each on what came of those before, and puts their answers into places that are lent, one after
/// another, as far as there are both calls and places. Answers how many calls were made; the places past them hold
/// what they held. A refused call is answered its refusal and changes nothing, and the next one is made.
#[tactic(auto, using(crate::proofs::Runs::none_first, crate::proofs::Runs::one_more, crate::proofs::Runs::all_made))]
pub fn run<D: Device>(rig: &mut Rig<D>, calls: &[Call<'_>], answers: &mut [Answer]) -> usize
    ensures { IsRun (state_of D.meaning rig.old) (map plan_call calls.now) answers.old answers.new result
        (state_of D.meaning rig.new) }
{
    let count = calls.len().min(answers.len());
    for i in 0..count {
        answers[i] = rig.make(&calls[i]);
    }
    count
}
