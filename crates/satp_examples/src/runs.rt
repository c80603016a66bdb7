// How commands and runs of the program end.
ghost use Rattle.satp_examples.specs.Runs.{EndsOfRuns, WorkOfCommands};

/// Ends of commands and of runs with what they leave, and ends that don't go with it.
pub fn law_runs()
    ensures commands { WorkOfCommands }
    ensures runs { EndsOfRuns }
{}
