//! What a case has to bring, as its files say.
use crate::play::Outcome;
use sq_top::Status;
use std::alloc::Global;
use std::rt::Files;
use std::{fs, io};

/// The bytes of both sinks, and the number of the status.
#[derive(Drop)]
pub struct Wanted {
    pub output: Vec<u8>,
    pub errors: Vec<u8>,
    pub status: u8,
}

impl Wanted {
    /// Whether a run brought this.
    pub fn agrees(&self, outcome: &Outcome) -> bool {
        self.is(outcome.status, outcome.out.taken(), outcome.err.taken())
    }

    /// Whether a run that brought this status and these bytes brought it.
    pub fn is(&self, status: Status, output: &[u8], errors: &[u8]) -> bool {
        status.code() == self.status
            && output == self.output.as_slice()
            && errors == self.errors.as_slice()
    }
}

/// Reads what the case with this name has to bring. A file of bytes that is missing stands for no bytes.
pub fn read_wanted<R: Files + AllocGlobal>(
    rt: &R,
    alloc: Global,
    name: &str,
) -> anyhow::Result<Wanted> {
    let status = path(alloc, name, "status")?;
    let status = fs::read_to_string(rt, status.as_str())?;
    Ok(Wanted {
        output: read_or_none(rt, alloc, name, "output")?,
        errors: read_or_none(rt, alloc, name, "errors")?,
        status: status.as_str().trim().parse::<u8>()?,
    })
}

/// Reads an input.
pub fn read_input<R: Files + AllocGlobal>(
    rt: &R,
    alloc: Global,
    name: &str,
) -> anyhow::Result<Vec<u8>> {
    let input = path(alloc, name, "input")?;
    Ok(fs::read(rt, input.as_str())?)
}

fn read_or_none<R: Files + AllocGlobal>(
    rt: &R,
    alloc: Global,
    name: &str,
    ending: &str,
) -> anyhow::Result<Vec<u8>> {
    let file = path(alloc, name, ending)?;
    match fs::read(rt, file.as_str()) {
        Ok(bytes) => Ok(bytes),
        Err(error) if error.kind() == io::ErrorKind::NotFound => Ok(Vec::new(alloc)),
        Err(error) => Err(error.into()),
    }
}

fn path(alloc: Global, name: &str, ending: &str) -> anyhow::Result<String> {
    Ok(format!(in alloc; "{name}.{ending}")?)
}
