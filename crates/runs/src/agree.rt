// The theorem of runs.
ghost use Rattle.runs.specs.Examples.{WorkedExamples};
ghost use Rattle.runs.specs.Promise.{WholePromise, WorkOffsEnd};

// Whatever turns are taken, performed and handed back, a run comes to what serial working comes to.
pub fn runs_agree()
    ensures { WholePromise }
{}

// Working off under any scheduler with states S ends where the bench can close.
pub fn work_offs_end<S>()
    ensures { WorkOffsEnd S }
{}

// Runs that are worked out on the definitions.
pub fn examples()
    ensures { WorkedExamples }
{}
