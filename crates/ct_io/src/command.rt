// What the program can be asked for.

/// The command of a run, its first word.
#[derive(Clone, Copy, Debug, PartialEq, Eq)]
pub enum Command {
    Telescope,
    Check,
    Reduce,
    Test,
    Close,
    Member,
    Gen,
    Demo,
}
