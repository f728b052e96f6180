// How a run ends.
ghost use Rattle.std.specs.Prelude.{◌≡◌};
ghost use Rattle.ct_run.specs.Status.{number_of, status_of};

/// How a run ended.
#[derive(Clone, Copy, Debug, PartialEq, Eq)]
pub enum Status {
    Done = 0,
    NoneFound = 1,
    BadInput = 2,
    Overflow = 3,
    ReadFault = 4,
    WriteFault = 5,
    NoMemory = 6,
    Usage = 7,
    CheckNo = 8,
}

impl Status {
    /// The number that the process ends with.
    pub fn number(self) -> u8
        ensures value { result ≡ number_of self }
    {
        self as u8
    }
}

/// How a run ends whose output is written whole: a status that is no fault and not out of memory.
#[derive(Clone, Copy, Debug, PartialEq, Eq)]
pub enum Outcome {
    Done,
    NoneFound,
    BadInput,
    Overflow,
    Usage,
    CheckNo,
}

impl Outcome {
    pub fn status(self) -> Status
        ensures value { result ≡ status_of self }
    {
        match self {
            Outcome::Done => Status::Done,
            Outcome::NoneFound => Status::NoneFound,
            Outcome::BadInput => Status::BadInput,
            Outcome::Overflow => Status::Overflow,
            Outcome::Usage => Status::Usage,
            Outcome::CheckNo => Status::CheckNo,
        }
    }
}
