// The check of a report that found a telescoper.
ghost use Rattle.std.specs.Prelude.{◌≡◌, OnOk};
ghost use Rattle.ct_algebra.specs.Certificate.{Certifies};
ghost use Rattle.ct_ore.specs.Naming.{actions_of, summed_of};
ghost use Rattle.ct_ore.specs.Answers.{certificate_of};
ghost use Rattle.ct_cert.specs.Certificates.{IsAnswerFor};
ghost use Rattle.ct_cert.specs.Testing.{AnswersTest, IfNo};
ghost use Rattle.ct_cert.specs.Tests.{tests, Holds};

use crate::place::{Stop, Support};
use crate::tests_in_order::all_tests;
use ct_ore::{Algebra, Answer, Op};
use std::alloc::Global;

/// Checks a report whose ending is `found` against the support that is due and the generators.
pub fn check_found(
    alloc: Global,
    algebra: &Algebra,
    generators: &[Op],
    due: Support,
    found: Support,
    answer: &Answer,
) -> Result<(), Stop>
    requires { IsAnswerFor algebra.now generators.now answer.now }
    ensures answers { AnswersTest (tests (actions_of algebra.now) (summed_of algebra.now) generators.now due found (certificate_of answer.now)) result }
    ensures certified { OnOk result (Certifies (actions_of algebra.now) (summed_of algebra.now) generators.now (certificate_of answer.now)) }
    ensures refuted { IfNo result (λ p. ¬ Holds (actions_of algebra.now) (summed_of algebra.now) generators.now due found (certificate_of answer.now) p) }
{
    all_tests(alloc, algebra, generators, due, found, answer)
}
