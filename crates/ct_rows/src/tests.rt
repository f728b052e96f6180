// What texts are read as, and what runs over them write.

mod problems;
mod runs;
