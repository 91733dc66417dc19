//! A borrowed machine, and the counts of its replies.
use cc_machine::Machine;
use cc_syntax::Tally;

/// A borrowed machine that replies to the lines of a script, and the counts of its replies.
#[derive(Drop)]
pub struct Session<'a> {
    /// The machine.
    pub machine: &'a mut Machine,
    /// The counts of the replies.
    pub tally: Tally,
}
