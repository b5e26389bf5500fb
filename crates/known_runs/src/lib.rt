// Runs with known ends, shown from the rules by computation.
#![tactic(auto)]

ghost use Rattle.known_runs.specs.Runs.{AllHold};
ghost use Rattle.known_runs.specs.Known.{known_runs};

// Every known run comes to the end that is written beside it. The function does nothing: its contract is what is proved.
pub fn known_runs_hold()
    ensures { AllHold known_runs }
{}
