// The file store: files on a disc that the caller lends, by name; what the operations answer.
#![tactic(auto)]

pub mod answer;
pub mod file;

// Why an operation was refused, by the documents' numbers.
#[derive(Clone, Copy, Debug, PartialEq, Eq)]
pub enum Refusal {
    WrongLength = 1,
    BadDisc = 2,
    BadArea = 3,
    ShortOutput = 4,
    BadName = 5,
    BadSize = 6,
    NameExists = 7,
    DirectoryFull = 8,
    NoRun = 9,
    NoSuchFile = 10,
    FileInUse = 11,
    NoSlot = 12,
    NoId = 13,
    NoProcess = 14,
    SameState = 15,
    NotRunning = 16,
    BadShare = 22,
}

// What an operation returns: a number, or why it was refused.
pub type Answer = Result<u16, Refusal>;
