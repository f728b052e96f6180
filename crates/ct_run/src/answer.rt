// The output for a text.
ghost use Rattle.std.specs.Prelude.{◌≡◌, IfOk};
ghost use Rattle.ct_run.specs.Out as spec;
ghost use Rattle.ct_run.specs.Output.{output_of};
ghost use Rattle.ct_run.specs.Ready.{IsReadyFor};

use crate::bad_input::bad_input;
use crate::checking::answer_check;
use crate::lines::not_yet;
use crate::output::Output;
use crate::reducing::answer_reduce;
use crate::testing::answer_test;
use ct_io::{Command, NoMemory};
use ct_problem::{ReadFault, read_problem};
use ct_setup::has_lists;
use std::alloc::Global;

/// The output for a command and a text, of which the first `MOST_BYTES + 1` bytes are enough.
#[tactic(auto, unfolding(crate::specs::Out::out))]
pub(crate) fn answer(alloc: Global, command: Command, bytes: &[u8]) -> Result<Output, NoMemory>
    ensures value { IfOk result (λ output. output_of output ≡ spec.out command bytes.now) }
    ensures ready { IfOk result (λ output. IsReadyFor command bytes.now output.outcome) }
{
    let problem = match read_problem(alloc, bytes, command) {
        Ok(problem) => problem,
        Err(ReadFault::Bad(fault)) => return bad_input(alloc, fault),
        Err(ReadFault::NoMemory) => return Err(NoMemory),
    };
    if has_lists(&problem) {
        return not_yet(alloc);
    }
    match command {
        Command::Check => answer_check(alloc, bytes, &problem),
        Command::Reduce => answer_reduce(alloc, &problem),
        Command::Test => answer_test(alloc, &problem),
        Command::Telescope | Command::Close | Command::Member | Command::Gen | Command::Demo =>
            not_yet(alloc),
    }
}
