// The laws of staircases and of normal forms, as functions with no code.
ghost use Rattle.ct_border.specs.FormLaws.{NormalFormsGoBySteps};
ghost use Rattle.ct_border.specs.StaircaseMeans.{RefusalsAreRight};

/// A list is refused only where its refusal says, and no test before it refuses.
pub fn refusals_are_right()
    ensures { RefusalsAreRight }
{}

/// A normal form is one step over the normal forms of smaller monomials.
pub fn normal_forms_go_by_steps()
    ensures { NormalFormsGoBySteps }
{}
