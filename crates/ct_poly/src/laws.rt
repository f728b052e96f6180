// The laws of shifts, of the measures, of division, of contents and of the order, as functions with no code.
ghost use Rattle.std.specs.Prelude.{◌≡◌};
ghost use Rattle.std.specs.Cmp.{IsTotalOrder};
ghost use Rattle.std.specs.declared.cmp.Ordering.TheVariants.{Equal};
ghost use Rattle.ct_algebra.specs.Polynomial.{Polynomial};
ghost use Rattle.ct_poly.specs.ContentLaws.{ContentIsGreatest, CommonMonomialIsGreatest, PartsMakeWhole, PrimitivePartIsPrimitive, PrimitiveFormIsPrimitive};
ghost use Rattle.ct_poly.specs.Crossing.{CrossQuotientsFit};
ghost use Rattle.ct_poly.specs.DivisionLaws.{EachDivisionStepFalls, DivisionGoesByTurns};
ghost use Rattle.ct_poly.specs.MeasureLaws.{SumFitsWhereMeasuresDo, ProductFitsWhereMeasuresDo, ProductWithZeroFits, CheckedValuesAreExact, SumsAreWithinMeasures, ProductsAreWithinMeasures, ShiftsAreWithinMeasures, DerivativesAreWithinMeasures};
ghost use Rattle.ct_poly.specs.Order.{poly_cmp};
ghost use Rattle.ct_poly.specs.ShiftLaws.{ShiftIsSubstitution, SymbolsShiftAndDerive};

/// A shift replaces its name by itself plus a number, and nothing else does.
pub fn shift_is_substitution()
    ensures { ShiftIsSubstitution }
{}

/// σ of a shift is the shift by 1, and δ of a derivation is the derivative.
pub fn symbols_shift_and_derive()
    ensures { SymbolsShiftAndDerive }
{}

/// A sum fits exactly where counts and norms have room together.
pub fn sum_fits_where_measures_do()
    ensures { SumFitsWhereMeasuresDo }
{}

/// A product of nonzero polynomials fits exactly where degrees, counts and norms have room.
pub fn product_fits_where_measures_do()
    ensures { ProductFitsWhereMeasuresDo }
{}

/// A product with zero always fits.
pub fn product_with_zero_fits()
    ensures { ProductWithZeroFits }
{}

/// The value of a checked operation is that of the exact one.
pub fn checked_values_are_exact()
    ensures { CheckedValuesAreExact }
{}

/// A sum and a difference have at most the terms and the norm of both together.
pub fn sums_are_within_measures()
    ensures { SumsAreWithinMeasures }
{}

/// A product's count, norm and degree are within those of its factors.
pub fn products_are_within_measures()
    ensures { ProductsAreWithinMeasures }
{}

/// A shift has at most the terms and the norm that its rules test.
pub fn shifts_are_within_measures()
    ensures { ShiftsAreWithinMeasures }
{}

/// A derivative has at most the terms of the polynomial, and the norm that its rule tests.
pub fn derivatives_are_within_measures()
    ensures { DerivativesAreWithinMeasures }
{}

/// Each step of a division makes the leading monomial of the rest fall, so a division ends.
pub fn each_division_step_falls()
    ensures { EachDivisionStepFalls }
{}

/// A division is a step and the division from there; or nothing, where there is no next term.
pub fn division_goes_by_turns()
    ensures { DivisionGoesByTurns }
{}

/// The divisors of the content are the common divisors of the coefficients.
pub fn content_is_greatest()
    ensures { ContentIsGreatest }
{}

/// The divisors of the common monomial are the monomials that divide every term.
pub fn common_monomial_is_greatest()
    ensures { CommonMonomialIsGreatest }
{}

/// A polynomial is the product of its parts.
pub fn parts_make_whole()
    ensures { PartsMakeWhole }
{}

/// Nothing but 1 divides all of a primitive part, which is positive at its leading term.
pub fn primitive_part_is_primitive()
    ensures { PrimitivePartIsPrimitive }
{}

/// No number but 1 divides all of a primitive form, which is positive at its leading term.
pub fn primitive_form_is_primitive()
    ensures { PrimitiveFormIsPrimitive }
{}

/// The order of polynomials is total, and equal polynomials are the same.
pub fn order_is_total()
    ensures total { IsTotalOrder poly_cmp }
    ensures tied { (p q : Polynomial) → poly_cmp p q ≡ Equal → p ≡ q }
{}

/// Where the measures leave room for both products, the difference and all steps of the division, an exact quotient of p·x − a·y
/// is the one that the checked steps find.
pub fn cross_quotients_fit_where_measures_do()
    ensures { CrossQuotientsFit }
{}
