// What ends the program with status 1.
use std::io;
use thiserror::Error;
use umem::refusal::Refusal;

#[derive(Debug, Drop, Error)]
pub enum Fault {
    #[error("the words cannot be read as UTF-8 text")]
    NotText,
    // A command that there is not.
    #[error("unknown word `{0}`; `nurvischi help` lists the words")]
    Unknown(String),
    #[error("help takes no further word")]
    HelpTakesNone,
    #[error("inspect takes the name of a trace file")]
    InspectTakesOne,
    #[error("inspect takes one trace file")]
    InspectTakesNoMore,
    // A file that cannot be read, and why.
    #[error("{0}: cannot be read: {1}")]
    Unreadable(String, io::Error),
    // What the library refuses of a file. Its words are asked for: a field is not shown beside one that a call is made on.
    #[error("{0}: refused {number}: {words}", number = .1.number(), words = .1.words())]
    Refused(String, Refusal),
    // Standard output or the arguments failed.
    #[error(transparent)]
    System(#[from] io::Error),
}
