// The laws of the values of expressions, as functions with no code.
ghost use Rattle.ct_expr.specs.ValueLaws.{ValuesAreLowest, PolynomialsLoseNothing, SumsAreExact, DifferencesAreExact, ProductsAreExact, QuotientsAreExact, NegativesAreExact, PowersAreExact};

/// The value of an expression is in lowest terms.
pub fn values_are_lowest()
    ensures { ValuesAreLowest }
{}

/// The value of an expression without symbols is its coefficient of 1.
pub fn polynomials_lose_nothing()
    ensures { PolynomialsLoseNothing }
{}

/// A sum of values is the sum of the fractions.
pub fn sums_are_exact()
    ensures { SumsAreExact }
{}

/// A difference of values is the difference of the fractions.
pub fn differences_are_exact()
    ensures { DifferencesAreExact }
{}

/// A product of values is the product of the fractions.
pub fn products_are_exact()
    ensures { ProductsAreExact }
{}

/// The value of a quotient of whole numbers is this fraction.
pub fn quotients_are_exact()
    ensures { QuotientsAreExact }
{}

/// A negated value is the negative of the fraction.
pub fn negatives_are_exact()
    ensures { NegativesAreExact }
{}

/// A power of a value is the power of the fraction.
pub fn powers_are_exact()
    ensures { PowersAreExact }
{}
