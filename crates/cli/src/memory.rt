//! The memory of the process, for what a command allocates.
ghost use Rattle.std.specs.Prelude.{◌≡◌, ◌⊎◌, ◌↔◌, Bool, Err, IfErr, IfOk, MatchResult, false, true};
ghost use Rattle.clap.specs.Walk.{texts};
ghost use Rattle.clap.specs.Words.{App, FailsBy, kind_of, subcommand_of};
ghost use Rattle.cli.specs.Devices.{GivesAll};
ghost use Rattle.cli.specs.Invocation.{IsInvocation, IsProgram, is_taken, mistakes_of};

use crate::fault::Fault;
use crate::invocation::Invocation;
use crate::reading::read_words;
use cc_io::{Failed, Source};
use clap::Error;
use clap::error::ErrorKind;
use std::alloc::Global;

/// The maximum number of bytes in one read of [`Memory::read_all`].
const PIECE: usize = 16384;

/// The memory for what a command allocates.
///
/// What allocates is a method of it, also the reading of the arguments, so that a contract can say that memory ran out
/// exactly if an allocation failed.
pub trait Memory {
    // A call has failed, since an allocation did. No other method is called after it.
    ghost has_failed: { Self → Bool };

    /// Reads the program's arguments as [`read_words`] does, which allocates.
    ///
    /// Requires: no call of this memory has failed.
    fn read_words<'a>(&mut self, words: &'a [&'a str]) -> Result<Invocation<'a>, Error>
        requires { Self.has_failed self.old ≡ false }
        ensures read { IfOk result (λ invocation. (app : App) × IsProgram app
            × IsInvocation (subcommand_of app (texts words.now)) invocation) }
        ensures refused { IfErr result (λ error.
            (app : App) × IsProgram app × (is_taken app (texts words.now) ≡ true
            → kind_of error ≡ ErrorKind.OutOfMemory)) }
        ensures kinds { (app : App) × IsProgram app × FailsBy (mistakes_of app (texts words.now)) result }
        ensures fails { MatchResult result (λ invocation. Self.has_failed self.new ≡ false)
            (λ error. (kind_of error ≡ ErrorKind.OutOfMemory) ↔ (Self.has_failed self.new ≡ true)) };

    /// Reads all bytes of a source.
    ///
    /// Requires: no call of this memory has failed, and the source has not.
    /// Errors: `Read` if and only if the source failed, and `Memory` if and only if an allocation failed.
    fn read_all<S: Source>(&mut self, source: &mut S) -> Result<Vec<u8>, Fault>
        requires memory { Self.has_failed self.old ≡ false }
        requires source { (S.state source.old).has_failed ≡ false }
        ensures gives { IfOk result (λ bytes. GivesAll (S.state source.old) (S.state source.new) bytes.items) }
        ensures read { (result ≡ Err Fault.Read) ↔ ((S.state source.new).has_failed ≡ true) }
        ensures fails { (result ≡ Err Fault.Memory) ↔ (Self.has_failed self.new ≡ true) }
        ensures others { IfErr result (λ fault. (fault ≡ Fault.Read) ⊎ (fault ≡ Fault.Memory)) };
}

/// The memory of the process.
#[derive(Drop)]
pub struct GlobalMemory {
    /// The allocator.
    pub alloc: Global,
    /// Whether a call has failed.
    pub has_failed: bool,
}

impl GlobalMemory {
    /// Creates the memory of the process.
    pub fn new(alloc: Global) -> Self
        ensures { ⟦<GlobalMemory as Memory>⟧.has_failed result ≡ false }
    {
        GlobalMemory {
            alloc,
            has_failed: false,
        }
    }
}

impl Memory for GlobalMemory {
    ghost has_failed = { λ memory. memory.has_failed };

    fn read_words<'a>(&mut self, words: &'a [&'a str]) -> Result<Invocation<'a>, Error> {
        let read = read_words(self.alloc, words);
        self.has_failed = match &read {
            Ok(_) => false,
            Err(error) => matches!(error.kind(), ErrorKind::OutOfMemory),
        };
        read
    }

    fn read_all<S: Source>(&mut self, source: &mut S) -> Result<Vec<u8>, Fault> {
        let read = read_all(self.alloc, source);
        self.has_failed = matches!(&read, Err(Fault::Memory));
        read
    }
}

/// Reads all bytes of a source.
#[inline(never)]
fn read_all<S: Source>(alloc: Global, source: &mut S) -> Result<Vec<u8>, Fault>
    requires { (S.state source.old).has_failed ≡ false }
    ensures gives { IfOk result (λ bytes. GivesAll (S.state source.old) (S.state source.new) bytes.items) }
    ensures read { (result ≡ Err Fault.Read) ↔ ((S.state source.new).has_failed ≡ true) }
    ensures others { IfErr result (λ fault. (fault ≡ Fault.Read) ⊎ (fault ≡ Fault.Memory)) }
{
    let mut bytes = Vec::new(alloc);
    let mut piece = [0u8; PIECE];
    'pieces: loop {
        let count = match source.read(&mut piece) {
            Ok(count) => count,
            Err(Failed) => return Err(Fault::Read),
        };
        if count == 0 {
            return Ok(bytes);
        }
        match bytes.extend_from_slice(&piece[..count]) {
            Ok(()) => {}
            Err(_) => return Err(Fault::Memory),
        }
    }
}
