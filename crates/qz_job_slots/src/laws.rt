//! That a step of a job finds its target's slot in the job's plan.

ghost use Rattle.qz_job_slots.specs.Steps.{StepsFindTheirSlots};

/// In a school whose shards agree with its catalogue each target of a job has its slot in the job's plan: so a step of a job binds it
/// anew or skips it, whoever asks for it and whenever.
pub fn steps_find_their_slots()
    ensures { StepsFindTheirSlots }
{}
