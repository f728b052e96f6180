// The laws of written fractions, as functions with no code.
ghost use Rattle.ct_frac.specs.FractionLaws.{WrittenValueIsAQuotient, CommonDenominatorIsDivided, CommonDenominatorIsLeast, FactorsAreDividedOut};

/// The value of a written fraction times its denominator is its numerator.
pub fn written_value_is_a_quotient()
    ensures { WrittenValueIsAQuotient }
{}

/// Each denominator of a list divides the common one, factor by factor.
pub fn common_denominator_is_divided()
    ensures { CommonDenominatorIsDivided }
{}

/// The common denominator of a list divides whatever each denominator of the list divides, factor by factor.
pub fn common_denominator_is_least()
    ensures { CommonDenominatorIsLeast }
{}

/// Normal divides each factor out until its exponent is 0 or there is no further quotient.
pub fn factors_are_divided_out()
    ensures { FactorsAreDividedOut }
{}
