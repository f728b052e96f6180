// The laws of left reduction, as functions with no code.
ghost use Rattle.ct_reduce.specs.ReductionLaws.{FirstReducerIsFirst, GreatestReducibleIsGreatest, EachStepIsExact, EachStepFalls, ReductionGoesByTurns, RestZeroIsMember};

/// The reducer of a monomial is the first generator whose leading monomial divides it; where there is none,
/// no leading monomial does.
pub fn first_reducer_is_first()
    ensures { FirstReducerIsFirst }
{}

/// What is reduced next is the greatest monomial that a leading monomial divides; where there is none, the
/// rest is reduced.
pub fn greatest_reducible_is_greatest()
    ensures { GreatestReducibleIsGreatest }
{}

/// A step multiplies all by a factor, so that a multiple of the generator takes the monomial away exactly.
pub fn each_step_is_exact()
    ensures { EachStepIsExact }
{}

/// Each step makes the monomial that is reduced next fall, so a reduction ends.
pub fn each_step_falls()
    ensures { EachStepFalls }
{}

/// A reduction is a step and the reduction from there; or nothing, where nothing is reducible.
pub fn reduction_goes_by_turns()
    ensures { ReductionGoesByTurns }
{}

/// An operator that reduces to zero is a member of the left ideal of the generators.
pub fn rest_zero_is_member()
    ensures { RestZeroIsMember }
{}
