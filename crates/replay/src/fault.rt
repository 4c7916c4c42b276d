// Why a line has no answer of its call's own.
use script::words::Unmade;
use std::io;
use thiserror::Error;

// No call is made, which is answered; or the run cannot go on.
#[derive(Debug, Drop, Error)]
pub enum Fault {
    #[error("{0}")]
    Unmade(#[from] Unmade),
    #[error("{0}")]
    Io(#[from] io::Error),
}
