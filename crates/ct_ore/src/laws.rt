// The laws of the measures of operators, as functions with no code.
ghost use Rattle.ct_ore.specs.MeasureLaws.{SumFitsWhereMeasuresDo, ProductFitsWhereMeasuresDo, ProductWithZeroFits, CheckedValuesAreExact, SumsAreWithinMeasures, ProductsAreWithinMeasures};

/// A sum or a difference fits exactly where counts and norms have room together.
pub fn sum_fits_where_measures_do()
    ensures { SumFitsWhereMeasuresDo }
{}

/// A product of nonzero operators fits exactly where degrees, orders, counts and norms have room.
pub fn product_fits_where_measures_do()
    ensures { ProductFitsWhereMeasuresDo }
{}

/// A product with zero always fits.
pub fn product_with_zero_fits()
    ensures { ProductWithZeroFits }
{}

/// The value of a checked operation is that of the exact one.
pub fn checked_values_are_exact()
    ensures { CheckedValuesAreExact }
{}

/// A sum or a difference has at most the terms and the norm of both operands together.
pub fn sums_are_within_measures()
    ensures { SumsAreWithinMeasures }
{}

/// A product has at most the terms and the norm of all pairs, as the rules count and weigh them, and at most
/// the degree and the order of both factors together.
pub fn products_are_within_measures()
    ensures { ProductsAreWithinMeasures }
{}
