// The laws of printed texts, as functions with no code.
ghost use Rattle.ct_answer.specs.ReadBack.{PrintedPolynomialsAreRead, PrintedOperatorsAreRead};

/// What is printed of a polynomial is an expression by the grammar, whose value is the polynomial.
pub fn printed_polynomials_are_read()
    ensures { PrintedPolynomialsAreRead }
{}

/// What is printed of an operator is an expression by the grammar, whose value is the operator.
pub fn printed_operators_are_read()
    ensures { PrintedOperatorsAreRead }
{}
