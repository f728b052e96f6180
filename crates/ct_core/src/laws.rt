// The laws of the machine, each a function with no code.
ghost use Rattle.ct_core.specs.CompleteList.{EveryScheduleDecidesAlike, OneWorkerDecides};

/// Whatever the number of workers and the order of their events, a complete list that agrees with a function
/// decides what one worker decides who tries the indices in order.
pub fn every_schedule_decides_alike()
    ensures { EveryScheduleDecidesAlike }
{}

/// The list of that one worker is itself legal and complete, it agrees with the function, and it decides so.
pub fn one_worker_decides()
    ensures { OneWorkerDecides }
{}
