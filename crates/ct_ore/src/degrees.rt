// Exponents, the degree and the order of an operator, which are within the largest degree.
ghost use Rattle.std.specs.Prelude.{◌≡◌, ◌<◌, ◌≤◌, map};
ghost use Rattle.ct_algebra.specs.Monomial.{exp, total};
ghost use Rattle.ct_algebra.specs.Polynomial.{degree};
ghost use Rattle.ct_checked.specs.Limits.{largest_degree};
ghost use Rattle.ct_ore.specs.AllNames.{number_of_names};
ghost use Rattle.ct_ore.specs.Terms.{op_entries};
ghost use Rattle.ct_ore.specs.Measures.{greatest};

use crate::op::OpTerm;
use ct_mono::Monomial;
use ct_poly::Poly;

/// An exponent, which is no larger than the total.
pub fn small_exponent(m: &Monomial, i: u8) -> u16
    requires { i < number_of_names }
    ensures value { result ≡ exp m.now i }
    ensures within { result ≤ largest_degree }
{
    let _total = m.total();
    m.exp(i)
}

/// The greatest degree of a coefficient.
pub fn degree_of(ps: &[OpTerm]) -> u16
    ensures value { result ≡ greatest (map (λ e. degree e.1) (op_entries ps.now)) }
    ensures within { result ≤ largest_degree }
{
    let mut most = 0;
    let mut rest = ps;
    'searching: while let Some((p, more)) = rest.split_first() {
        let here = degree_of_poly(&p.coef);
        most = if here > most { here } else { most };
        rest = more;
    }
    most
}

fn degree_of_poly(p: &Poly) -> u16
    ensures value { result ≡ degree p.now }
    ensures within { result ≤ largest_degree }
{
    let Some((t, _)) = p.terms().split_first() else {
        return 0;
    };
    t.mono.total()
}

/// The greatest total of the symbols.
pub fn order_of(ps: &[OpTerm]) -> u16
    ensures value { result ≡ greatest (map (λ e. total e.0) (op_entries ps.now)) }
    ensures within { result ≤ largest_degree }
{
    let mut most = 0;
    let mut rest = ps;
    'searching: while let Some((p, more)) = rest.split_first() {
        let here = p.mono.total();
        most = if here > most { here } else { most };
        rest = more;
    }
    most
}
