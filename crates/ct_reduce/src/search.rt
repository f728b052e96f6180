// The greatest monomial of an operator that a generator reduces.
ghost use Rattle.std.specs.Prelude.{◌≡◌};
ghost use Rattle.ct_algebra.specs.Leading.{leading};
ghost use Rattle.ct_reduce.specs.Reduction.{over_leading, first_reducer, first_reducible};
ghost use Rattle.ct_reduce.specs.Views.{found_reducer_of, found_reducible_of};

use ct_mono::Monomial;
use ct_ore::{Op, OpTerm};

/// A generator, its place in the list, and the symbols that take its leading monomial to another.
#[derive(Drop)]
pub struct Reducer<'a> {
    pub place: usize,
    pub generator: &'a Op,
    pub symbols: Monomial,
}

/// A term whose monomial has a reducer.
#[derive(Drop)]
pub(crate) struct Reducible<'a, 'r> {
    pub term: &'r OpTerm,
    pub reducer: Reducer<'a>,
}

/// The greatest monomial that has a reducer.
pub(crate) fn greatest_reducible<'a, 'r>(
    generators: &'a [Op],
    rest: &'r Op,
) -> Option<Reducible<'a, 'r>>
    ensures { found_reducible_of result ≡ first_reducible generators.now rest.now.terms }
{
    let mut terms = rest.terms();
    'finding: while let Some((term, more)) = terms.split_first() {
        match first_reducer(&term.mono, generators) {
            Some(reducer) => {
                return Some(Reducible { term, reducer });
            }
            None => {}
        }
        terms = more;
    }
    None
}

/// The first generator whose leading monomial divides m.
pub fn first_reducer<'a>(m: &Monomial, generators: &'a [Op]) -> Option<Reducer<'a>>
    ensures { found_reducer_of result ≡ first_reducer m.now generators.now }
{
    let mut place = 0;
    let mut rest = generators;
    'trying: while let Some((generator, more)) = rest.split_first() {
        match over_leading(m, generator) {
            Some(symbols) => {
                return Some(Reducer {
                    place,
                    generator,
                    symbols,
                });
            }
            None => {}
        }
        place += 1;
        rest = more;
    }
    None
}

// What times the leading monomial of an operator is m.
fn over_leading(m: &Monomial, g: &Op) -> Option<Monomial>
    ensures { result ≡ over_leading m.now (leading g.now.terms) }
{
    let Some((first, _)) = g.terms().split_first() else {
        return None;
    };
    m.over(&first.mono)
}
