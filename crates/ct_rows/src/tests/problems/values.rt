// The values of what is read.

use ct_answer::{print_op, print_poly};
use ct_io::Command;
use ct_problem::{evaluate, evaluate_polynomial, read_problem, summed_names};
use std::test::Fail;

const TEXT: &[u8] =
    b"mgfun problem 1\nfree n shift\nsum k\ntarget S[n]*n - (n + 1)^2\ntarget 3/2*(n + k)^2 - 1/4\nend\n";

#[test]
fn what_is_read_has_its_value(rt: HostRuntime) -> Result<(), Fail> {
    let alloc = rt.alloc();
    let problem = read_problem(alloc, TEXT, Command::Reduce)?;
    let algebra = &problem.algebra;
    assert_eq!(rt; problem.targets.len(), 2);
    let targets = problem.targets.as_slice();
    let (first, second) = (&targets[0], &targets[1]);
    let operator = evaluate(alloc, algebra, first)?;
    let text = print_op(alloc, algebra, &operator)?;
    assert_eq!(rt; text.as_slice(), b"(n + 1)*S[n] - n^2 - 2*n - 1".as_slice());
    let polynomial = evaluate_polynomial(alloc, algebra, second)?;
    let text = print_poly(alloc, algebra, &polynomial)?;
    assert_eq!(rt; text.as_slice(), b"6*n^2 + 12*n*k + 6*k^2 - 1".as_slice());
    let summed = summed_names(alloc, algebra)?;
    assert_eq!(rt; summed.as_slice(), [1u8].as_slice());
    Ok(())
}
