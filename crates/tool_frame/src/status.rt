//! The statuses that the program ends with.

ghost use Rattle.std.specs.Prelude.{◌≡◌};
ghost use Rattle.tool_frame.specs.Statuses.{answer_code, fault_code, search_status};

/// The status where the words ask for no tool.
pub const MISUSED: u8 = 2;

/// The status where a write failed.
pub const UNWRITTEN: u8 = 6;

/// The status where memory is wanting.
pub const NO_MEMORY: u8 = 7;

/// How a tool ends that printed its whole text.
#[derive(Clone, Copy)]
pub enum AnswerStatus {
    /// It is done: of a search, the answer is optimal, and of a check, the answer is accepted.
    Done,
    /// A check refused the answer.
    Refused,
    /// A search stopped before it had proved its answer optimal.
    Stopped,
}

impl AnswerStatus {
    /// How a search ends whose answer is optimal or isn't.
    pub fn of_search(is_optimal: bool) -> AnswerStatus
        ensures { result ≡ search_status is_optimal }
    {
        if is_optimal {
            AnswerStatus::Done
        } else {
            AnswerStatus::Stopped
        }
    }

    /// The status that the program ends with.
    pub fn code(self) -> u8
        ensures { result ≡ answer_code self }
    {
        match self {
            AnswerStatus::Done => 0,
            AnswerStatus::Refused => 1,
            AnswerStatus::Stopped => 3,
        }
    }
}

/// How a tool ends that found a fault in what it read.
#[derive(Clone, Copy)]
pub enum FaultStatus {
    /// What was read isn't what the tool reads.
    Malformed,
    /// A read failed.
    Unread,
    /// What was read is beyond a limit.
    TooLarge,
}

impl FaultStatus {
    /// The status that the program ends with.
    pub fn code(self) -> u8
        ensures { result ≡ fault_code self }
    {
        match self {
            FaultStatus::Malformed => 4,
            FaultStatus::Unread => 5,
            FaultStatus::TooLarge => 8,
        }
    }
}
