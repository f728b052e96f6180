// The laws of this crate's definitions, as functions with no code.

ghost use Rattle.ct_telescoping.specs.EliminationLaws.{EliminationGoesByColumns, FinishedEliminationDecides};
ghost use Rattle.ct_telescoping.specs.StaircaseLaws.{StaircaseGrows, StaircaseIsModule, RowsExist, RowsAreDetermined, TestsSuffice, TestedGivesModule, ImageDecidesMembership};
ghost use Rattle.ct_telescoping.specs.SupportLaws.{ColumnsAreOfSupport, SystemIsMade, SystemIsDetermined, SystemIsFree, EliminationDecidesSupport, RefutedIsEmpty, AssemblyCertifies};
ghost use Rattle.ct_telescoping.specs.Example.{ConstantsAreTested};

/// A staircase has the divisors of its elements, and grows from 1.
pub fn staircase_grows()
    ensures { StaircaseGrows }
{}

/// Vectors over a staircase whose rows commute are a module.
pub fn staircase_is_module()
    ensures { StaircaseIsModule }
{}

/// Generators with a staircase have rows of normal forms.
pub fn rows_exist()
    ensures { RowsExist }
{}

/// Generators have one staircase and one list of rows.
pub fn rows_are_determined()
    ensures { RowsAreDetermined }
{}

/// Rows that pass the tests are the rows of normal forms.
pub fn tests_suffice()
    ensures { TestsSuffice }
{}

/// Tested generators give a module, in which their combinations make zero of the start.
pub fn tested_gives_module()
    ensures { TestedGivesModule }
{}

/// For tested generators what an operator makes of the start decides whether it is a member.
pub fn image_decides_membership()
    ensures { ImageDecidesMembership }
{}

/// The list of one derivation is tested, so the definition can be met.
pub fn constants_are_tested()
    ensures { ConstantsAreTested }
{}

/// Elimination that goes through the columns, row by row, keeps what its invariant says.
pub fn elimination_goes_by_columns()
    ensures { EliminationGoesByColumns }
{}

/// A finished elimination refutes, or its null vector is one of the matrix.
pub fn finished_elimination_decides()
    ensures { FinishedEliminationDecides }
{}

/// The list of columns has each column of the support once, and no other.
pub fn columns_are_of_support()
    ensures { ColumnsAreOfSupport }
{}

/// The rows at which some column has a nonzero coefficient, listed, are a system.
pub fn system_is_made()
    ensures { SystemIsMade }
{}

/// The vectors of columns have one system over a common denominator.
pub fn system_is_determined()
    ensures { SystemIsDetermined }
{}

/// The entries of a system have no summed name.
pub fn system_is_free_of_summed()
    ensures { SystemIsFree }
{}

/// A finished elimination of a support's matrix refutes the support, or its null vector is one for it.
pub fn elimination_decides_support()
    ensures { EliminationDecidesSupport }
{}

/// For tested generators a support whose system is refuted has no telescoper.
pub fn refuted_is_empty()
    ensures { RefutedIsEmpty }
{}

/// For tested generators what a null vector of a system is assembled to certifies, once its residual is reduced.
pub fn assembly_certifies()
    ensures { AssemblyCertifies }
{}
