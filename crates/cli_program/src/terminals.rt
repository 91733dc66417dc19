//! Which standard streams are terminals.

/// Which standard streams are terminals.
#[derive(Clone, Copy)]
pub struct Terminals {
    /// Standard input.
    pub input: bool,
    /// Standard error.
    pub errors: bool,
}
