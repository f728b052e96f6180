// The law of slimming, as a function with no code.
ghost use Rattle.ct_linsolve.specs.Slimming.{SlimmingDividesOut};

/// Slimming takes a factor out of all entries, and a candidate that isn't constant doesn't divide what is left after its turn.
pub fn slimming_divides_out()
    ensures { SlimmingDividesOut }
{}
