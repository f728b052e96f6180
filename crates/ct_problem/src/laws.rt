// The laws of the grammars, as functions with no code.
ghost use Rattle.ct_problem.specs.GrammarLaws.{ProblemsAreRead, ReportsAreRead, TextsStandForOneProblem, TextsStandForOneReport};

/// For a command, a text stands for one problem at most, with one place behind it.
pub fn texts_stand_for_one_problem()
    ensures { TextsStandForOneProblem }
{}

/// A text stands for one report at most, under given names and a number of generators.
pub fn texts_stand_for_one_report()
    ensures { TextsStandForOneReport }
{}

/// A text is read as a problem, for a command, exactly where it stands for it, with the same place behind it.
pub fn problems_are_read()
    ensures { ProblemsAreRead }
{}

/// A text is read as a report, under given names and a number of generators, exactly where it stands for it.
pub fn reports_are_read()
    ensures { ReportsAreRead }
{}
