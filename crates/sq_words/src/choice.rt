//! What the words of a command line choose.

/// What the program does.
#[derive(Clone, Copy, Debug, PartialEq, Eq)]
pub enum Mode {
    /// Keeps the views of a program current, over change lines.
    Run,
    /// Checks a program, and writes its relations.
    Check,
    /// Writes the circuit of a program.
    Explain,
    /// Runs a program and changes of its own, and writes how many rows each view then has.
    Sample,
}

/// What the words of a command line choose. A number that a mode does not use has no effect.
#[derive(Clone, Copy, Debug, PartialEq, Eq)]
pub struct Choice {
    pub mode: Mode,
    /// How many workers there are, from 1 to 64.
    pub workers: u32,
    /// The seed of the sample.
    pub seed: u32,
    /// The number of ticks of the sample after its first one, from 1 to 1,000,000.
    pub ticks: u32,
}
