//! The inputs that commands read.
ghost use Rattle.std.specs.Prelude.{◌≡◌, ◌↔◌, ◌≤◌, ◌∷◌, ℕ, Bool, List, Option, Some, IfErr, IfOk, IfSome, IsErr, OnOk};
ghost use Rattle.std.specs.Prelude.{drop, false, true};
ghost use Rattle.cli.specs.declared.input.Content.{Content as ContentSpec};
ghost use Rattle.cli.specs.declared.input.InputName.{InputName as InputNameSpec};
ghost use Rattle.cli.specs.Input.{IsFile, file_input};

use crate::fault::Fault;
use cc_io::{Page, Source};

/// The name of an input.
#[derive(Clone, Copy)]
pub enum InputName<'a> {
    /// Standard input.
    Standard,
    /// The file of this name.
    File(&'a str),
}

/// The content of an input. It decides the maximum length of the input, and the notices for a user at a terminal.
#[derive(Clone, Copy)]
pub enum Content {
    /// A script whose replies are written. A notice says that it is awaited.
    Script,
    /// A script whose pool is drawn.
    Pool,
    /// Words or lengths.
    Words,
    /// A trace. A notice shows how much of it has been read.
    Trace,
    /// A trace whose script is written. No notice is shown.
    TraceForScript,
}

/// The inputs of commands.
pub trait Inputs {
    /// The source of an input.
    type Opened: Source;

    // The bytes of an input, if they are known. Opening an input does not change them.
    ghost bytes_of: { Self → InputNameSpec → Option (List ℕ) };

    // Whether these may be all requests by `open` and `open_after`, the last one first. It is true of those that were
    // made.
    ghost requested: { Self → List (InputNameSpec × ContentSpec) → Bool };

    // An input that was requested was not opened. No other is requested after it.
    ghost has_refused: { Self → Bool };

    /// Makes a source read an input from its start. The source is the caller's, so that a contract can name its state
    /// after the command.
    ///
    /// Requires: each input that was requested was opened, and the source has not failed.
    /// Errors: `Open` if a file cannot be opened.
    fn open(
        &mut self,
        input: InputName<'_>,
        content: Content,
        source: &mut Self::Opened,
    ) -> Result<(), Fault>
        requires inputs { has_refused self.old ≡ false }
        requires source { (Self.Opened.state source.old).has_failed ≡ false }
        ensures opened { OnOk result (IfSome (bytes_of self.old input.entry)
            (λ bytes. (Self.Opened.state source.new).unread ≡ Some bytes)) }
        ensures kept { bytes_of self.new ≡ bytes_of self.old }
        ensures fails { IfErr result (λ fault. (fault ≡ Fault.Open) × IsFile input.entry) }
        ensures asked { (before : List (InputNameSpec × ContentSpec)) → requested self.old before ≡ true
            → requested self.new ((input.entry, content) ∷ before) ≡ true }
        ensures refused { IsErr result ↔ (has_refused self.new ≡ true) }
        ensures unfailed { (Self.Opened.state source.new).has_failed ≡ false };

    /// Makes a source read an input from one of its first bytes on, and returns the number of the bytes before that,
    /// at most `most`. They are not read. Otherwise like [`Inputs::open`].
    ///
    /// Errors: `Open` if a file cannot be opened.
    fn open_after(
        &mut self,
        input: InputName<'_>,
        content: Content,
        most: u64,
        source: &mut Self::Opened,
    ) -> Result<u64, Fault>
        requires inputs { has_refused self.old ≡ false }
        requires source { (Self.Opened.state source.old).has_failed ≡ false }
        ensures opened { IfOk result (λ passed. IfSome (bytes_of self.old input.entry)
            (λ bytes. (Self.Opened.state source.new).unread ≡ Some (drop passed bytes))) }
        ensures within { IfOk result (λ passed. passed ≤ most) }
        ensures fails { IfErr result (λ fault. (fault ≡ Fault.Open) × IsFile input.entry) }
        ensures asked { (before : List (InputNameSpec × ContentSpec)) → requested self.old before ≡ true
            → requested self.new ((input.entry, content) ∷ before) ≡ true }
        ensures refused { IsErr result ↔ (has_refused self.new ≡ true) }
        ensures unfailed { (Self.Opened.state source.new).has_failed ≡ false };

    /// Returns the first bytes of the regular file of this name, at most 36, or `None` if they cannot be read.
    /// This is not among the requests: no clause says for which file it is called.
    fn start_of(&self, path: &str) -> Option<Page<36>>;
}

/// Returns the input that FILE names: standard input for `-`, and if FILE is not given.
pub fn file_input<'a>(file: Option<&'a str>) -> InputName<'a>
    ensures { result ≡ file_input file.entry }
{
    match file {
        None | Some("-") => InputName::Standard,
        Some(path) => InputName::File(path),
    }
}
