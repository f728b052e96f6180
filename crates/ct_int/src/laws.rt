// The laws of values, of common divisors and of common multiples, each a function with no code.
ghost use Rattle.ct_int.specs.DivisorLaws.{GreatestCommonIsGcd, LeastCommonIsLeast};
ghost use Rattle.ct_int.specs.RationalLaws.{LowestTermsAreUnique, LowestTermsExist, SumsAreByValue, ProductsAreByValue, DifferenceUndoesSum, QuotientUndoesProduct, OrderIsByValue, OrderIsTotal};

/// Ratios of one value have one lowest terms.
pub fn lowest_terms_are_unique()
    ensures { LowestTermsAreUnique }
{}

/// Every ratio has lowest terms.
pub fn lowest_terms_exist()
    ensures { LowestTermsExist }
{}

/// Equal values have equal sums.
pub fn sums_are_by_value()
    ensures { SumsAreByValue }
{}

/// Equal values have equal products.
pub fn products_are_by_value()
    ensures { ProductsAreByValue }
{}

/// A difference and its second operand have the first as their sum.
pub fn difference_undoes_sum()
    ensures { DifferenceUndoesSum }
{}

/// A quotient and its divisor have the dividend as their product.
pub fn quotient_undoes_product()
    ensures { QuotientUndoesProduct }
{}

/// Equal values stand alike in the order, and only they are equal in it.
pub fn order_is_by_value()
    ensures { OrderIsByValue }
{}

/// The order of the values is total.
pub fn order_is_total()
    ensures { OrderIsTotal }
{}

/// The greatest number that divides two is their greatest common divisor.
pub fn greatest_common_is_gcd()
    ensures { GreatestCommonIsGcd }
{}

/// The least common multiple is divided by both numbers, and divides every number that both divide.
pub fn least_common_is_least()
    ensures { LeastCommonIsLeast }
{}
