// Whole runs of `reduce`.

mod derivations;
mod mixed;
mod refusals;
mod shifts;
