// Whether an operator is free of the summed names.
ghost use Rattle.std.specs.Prelude.{◌≡◌, ◌<◌, map};
ghost use Rattle.std.specs.List.{All};
ghost use Rattle.ct_cert.specs.Certificates.{names_of, IsSmall};
ghost use Rattle.ct_cert.specs.Freedom.{operator_lacks, term_lacks};

use ct_mono::Monomial;
use ct_ore::{Op, Part};
use ct_poly::Poly;

// The names are those of the parts.
pub(crate) fn is_free(parts: &[Part], op: &Op) -> bool
    requires { All IsSmall parts.now }
    ensures { result ≡ operator_lacks (names_of parts.now) op.now }
{
    let mut rest = op.terms();
    while let Some((term, more)) = rest.split_first() {
        if !term_is_free(parts, &term.mono, &term.coef) {
            return false;
        }
        rest = more;
    }
    true
}

fn term_is_free(parts: &[Part], mono: &Monomial, coef: &Poly) -> bool
    requires { All IsSmall parts.now }
    ensures { result ≡ term_lacks (names_of parts.now) mono.now coef.now }
{
    let mut rest = parts;
    while let Some((part, more)) = rest.split_first() {
        if mono.exp(part.name) != 0 || coef.contains(part.name) {
            return false;
        }
        rest = more;
    }
    true
}
