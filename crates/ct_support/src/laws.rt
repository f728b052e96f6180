// The laws of supports and their columns, as functions with no code.
ghost use Rattle.ct_support.specs.SupportLaws.{SupportsAreNumbered, MonomialsAreCounted, ColumnsAreCounted};

/// Each order and degree of the ranges has one number, and numbers rise with the order, then the degree.
pub fn supports_are_numbered()
    ensures { SupportsAreNumbered }
{}

/// The monomials in some names up to a total, counted by stars and bars.
pub fn monomials_are_counted()
    ensures { MonomialsAreCounted }
{}

/// The number of columns is the length of the list of columns.
pub fn columns_are_counted()
    ensures { ColumnsAreCounted }
{}
