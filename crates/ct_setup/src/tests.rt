// Problems that are prepared, and where they are refused.
ghost use Rattle.std.specs.Prelude.{◌≡◌, false, IfOk};
ghost use Rattle.ct_problem.specs.ReadProblem.{reading_of};
ghost use Rattle.ct_setup.specs.Setup.{has_lists};

use crate::{SetupFault, SetupPhase, elements, has_lists, prepare, prepare_plain};
use ct_border::{BuildFault, StairFault};
use ct_mono::Kind;
use ct_problem::{Command, Problem, read_problem};
use std::alloc::Global;
use std::test::Fail;

/// A problem with these lines behind those of its names, n and k, without lists.
fn problem(alloc: Global, lines: &str) -> Result<Problem, Fail>
    ensures { IfOk result (λ p. has_lists (reading_of p) ≡ false) }
{
    let text = format!(in alloc; "mgfun problem 1\nfree n shift\nsum k\n{lines}end\n")?;
    let problem = read_problem(alloc, text.as_bytes(), Command::Gen)?;
    if has_lists(&problem) {
        return Err("a list".into());
    }
    Ok(problem)
}

// Binomial coefficients
const BINOMIAL: &str = "gen (n + 1 - k)*S[n] - (n + 1)\ngen (k + 1)*S[k] - (n - k)\n";

#[test]
fn tested_generators_are_ready(rt: HostRuntime) -> Result<(), Fail> {
    let alloc = rt.alloc();
    let text = format!(in alloc; "{BINOMIAL}den k: n + 1 - k\ntarget S[n] - 2\n")?;
    let problem = problem(alloc, text.as_str())?;
    let Ok(ready) = prepare(alloc, &problem) else {
        return Err("refused".into());
    };
    assert_eq!(rt; ready.generators.len(), 2);
    assert_eq!(rt; ready.targets.len(), 1);
    assert_eq!(rt; ready.setting.module().basis().len(), 1);
    assert_eq!(rt; ready.setting.algebra().count(), 2);
    assert!(rt; ready.setting.den(0).is_none());
    assert!(rt; ready.setting.den(1).is_some());
    let elements = elements(alloc, &problem)?;
    assert_eq!(rt; elements.len(), 1);
    Ok(())
}

#[test]
fn a_zero_denominator_comes_before_targets_and_the_test(rt: HostRuntime) -> Result<(), Fail> {
    let alloc = rt.alloc();
    let problem = problem(alloc, "gen 1\nden k: k - k\ntarget (n + 2)^4095\n")?;
    assert!(rt; matches!(prepare(alloc, &problem), Err(SetupFault::ZeroDen(1))));
    Ok(())
}

#[test]
fn a_target_that_overflows_comes_before_the_test(rt: HostRuntime) -> Result<(), Fail> {
    let alloc = rt.alloc();
    let problem = problem(alloc, "gen 1\ntarget (n + 2)^4095\n")?;
    let overflow = matches!(
        prepare(alloc, &problem),
        Err(SetupFault::Overflow(SetupPhase::Input, Kind::Number))
    );
    assert!(rt; overflow);
    Ok(())
}

#[test]
fn a_generator_that_is_zero_is_refused_at_its_line(rt: HostRuntime) -> Result<(), Fail> {
    let alloc = rt.alloc();
    let problem = problem(alloc, "gen S[n]\ngen n - n\ngen (n + 2)^4095\n")?;
    let zero = matches!(
        prepare_plain(alloc, &problem),
        Err(SetupFault::Build {
            named: None,
            fault: BuildFault::Stair(StairFault::ZeroGenerator(2)),
        })
    );
    assert!(rt; zero);
    Ok(())
}
