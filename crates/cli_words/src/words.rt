//! `decode`, `annotate` and `round --list`: the call for the words or the lengths of an input.
ghost use Rattle.std.specs.Prelude.{◌≡◌, ◌≢◌, ◌↔◌, ◌∷◌, ◌++◌, IfOk, IfSome, IsSome, IsTrue, false, true, Err, OnErr};
ghost use Rattle.cli.specs.Devices.{FromInput, IsEnd, OnDevices, OnOutput, console_of};
ghost use Rattle.cli.specs.Input.{AreUnasked, IsFile, OpensFile, file_input};
ghost use Rattle.cli_words.specs.DecodeOptions.{options_of, part_of, search_of};
ghost use Rattle.cli_words.specs.Tasks.{AnnotatesWords, GaveAll, ListsCoreFile, ListsInput, ListsWords};
ghost use Rattle.cli_words.specs.Tasks.{RoundsLengths, SeesLengths};

use crate::decode_options::{options_of, part_of, search_of};
use crate::file_hint::hint_file;
use crate::length_list::round_list;
use crate::number_hint::hint_numbers;
use crate::questions::address_of;
use cc_decode::{Options, Part, annotate, decode_core, decode_words};
use cc_io::{Format, InputForm, Sink, Summary};
use cli::{
    Base, Content, DecodeValues, Fault, InputName, Inputs, Memory, SearchValues, file_input,
};

/// Writes a row for each listed word of the part of the input that FILE names, of the tagged ones if there is a file of
/// tags, which is read first. Then writes the hint on an ELF64 file, or on lines that end in CR LF, to `errors`, if
/// hints are given and a file was decoded from its first byte on.
///
/// Requires: no device has failed.
/// Errors: `Open` if the input or the file of the tags cannot be opened, and nothing was written then; `Memory` if the
/// tags do not fit in memory, and nothing was written then; `Read` if a read fails; `Write` if and only if the sink
/// failed. No hint is written then.
pub fn decode_file<M: Memory, I: Inputs, W: Sink, E: Sink>(
    memory: &mut M,
    input: InputForm,
    format: Format,
    values: DecodeValues<'_>,
    hints: bool,
    inputs: &mut I,
    source: &mut I::Opened,
    file: Option<&str>,
    sink: &mut W,
    errors: &mut E,
) -> Result<Summary, Fault>
    requires memory { M.has_failed memory.old ≡ false }
    requires source { (I.Opened.state source.old).has_failed ≡ false }
    requires inputs { I.has_refused inputs.old ≡ false }
    requires sink { (W.state sink.old).has_failed ≡ false }
    requires errors { (E.state errors.old).has_failed ≡ false }
    ensures decodes { OnOutput (I.bytes_of inputs.old) (I.Opened.state source.new) (W.state sink.old) (W.state sink.new)
        (ListsInput values.entry.tags (file_input file.entry) (part_of values.entry)
        (options_of input format values.entry)) result }
    ensures silent { ¬ IsTrue hints → errors.new ≡ errors.old }
    ensures unreported { OnErr result (errors.new ≡ errors.old) }
    ensures open { result ≡ Err Fault.Open → OpensFile values.entry.tags (file_input file.entry) }
    ensures allocates { (result ≡ Err Fault.Memory) ↔ (M.has_failed memory.new ≡ true) }
    ensures starved { result ≡ Err Fault.Memory → IsSome values.entry.tags × (sink.new ≡ sink.old) }
    ensures asked { (before : _) → I.requested inputs.old before ≡ true
        → AreUnasked values.entry.tags (file_input file.entry) Content.Words
        (λ requests. I.requested inputs.new (requests ++ before))
        → (inputs.new ≡ inputs.old) × (source.new ≡ source.old) }
    ensures end { IsEnd (I.has_refused inputs.new) (I.Opened.state source.new) (W.state sink.old) (W.state sink.new)
        result }
{
    match values.tags {
        None => {
            list_file(
                input, format, values, None, hints, inputs, source, file, sink, errors,
            )
        }
        Some(path) => match read_input(memory, InputName::File(path), inputs, source) {
            Ok(bits) => {
                let bits = Some(bits.as_slice());
                list_file(
                    input, format, values, bits, hints, inputs, source, file, sink, errors,
                )
            }
            Err(fault) => Err(fault),
        },
    }
}

/// Writes a row for each listed word of the segments of the core file that FILE names, which is read as a whole.
///
/// Requires: no device has failed.
/// Errors: `Open` if the input cannot be opened, and nothing was written then; `Memory` if the file does not fit in
/// memory, and nothing was written then; `Read` if a read fails; `Write` if and only if the sink failed.
pub fn decode_core_file<M: Memory, I: Inputs, W: Sink>(
    memory: &mut M,
    format: Format,
    search: SearchValues,
    inputs: &mut I,
    source: &mut I::Opened,
    file: Option<&str>,
    sink: &mut W,
) -> Result<Summary, Fault>
    requires memory { M.has_failed memory.old ≡ false }
    requires source { (I.Opened.state source.old).has_failed ≡ false }
    requires inputs { I.has_refused inputs.old ≡ false }
    requires sink { (W.state sink.old).has_failed ≡ false }
    ensures lists { OnOutput (I.bytes_of inputs.old) (I.Opened.state source.new) (W.state sink.old) (W.state sink.new)
        (ListsCoreFile (file_input file.entry) format (search_of false search)) result }
    ensures open { result ≡ Err Fault.Open → IsFile (file_input file.entry) }
    ensures allocates { (result ≡ Err Fault.Memory) ↔ (M.has_failed memory.new ≡ true) }
    ensures starved { result ≡ Err Fault.Memory → sink.new ≡ sink.old }
    ensures asked { (before : _) → I.requested inputs.old before ≡ true
        → I.requested inputs.new ((file_input file.entry, Content.Words) ∷ before) ≡ false
        → (inputs.new ≡ inputs.old) × (source.new ≡ source.old) }
    ensures end { IsEnd (I.has_refused inputs.new) (I.Opened.state source.new) (W.state sink.old) (W.state sink.new)
        result }
{
    let search = search_of(false, search);
    match read_input(memory, file_input(file), inputs, source) {
        Ok(bytes) => Ok(decode_core(bytes.as_slice(), format, search, sink)?),
        Err(fault) => Err(fault),
    }
}

/// Reads all bytes of an input.
///
/// Requires: no device has failed.
/// Errors: `Open`, `Read` and `Memory`, if the file cannot be opened, or a read of it or an allocation fails.
fn read_input<M: Memory, I: Inputs>(
    memory: &mut M,
    input: InputName<'_>,
    inputs: &mut I,
    source: &mut I::Opened,
) -> Result<Vec<u8>, Fault>
    requires memory { M.has_failed memory.old ≡ false }
    requires source { (I.Opened.state source.old).has_failed ≡ false }
    requires inputs { I.has_refused inputs.old ≡ false }
    ensures reads { IfOk result (λ read. IfSome (I.bytes_of inputs.old input.entry) (λ bytes. read.items ≡ bytes)) }
    ensures gave { IfOk result (λ read. GaveAll (I.bytes_of inputs.old input.entry) (I.Opened.state source.new)
        read.items) }
    ensures kept { I.bytes_of inputs.new ≡ I.bytes_of inputs.old }
    ensures open { (result ≡ Err Fault.Open) ↔ (I.has_refused inputs.new ≡ true) }
    ensures named { result ≡ Err Fault.Open → IsFile input.entry }
    ensures read { (result ≡ Err Fault.Read) ↔ ((I.Opened.state source.new).has_failed ≡ true) }
    ensures allocates { (result ≡ Err Fault.Memory) ↔ (M.has_failed memory.new ≡ true) }
    ensures unwritten { result ≢ Err Fault.Write }
    ensures asked { (before : _) → I.requested inputs.old before ≡ true
        → I.requested inputs.new ((input.entry, Content.Words) ∷ before) ≡ true }
{
    match inputs.open(input, Content::Words, source) {
        Ok(()) => memory.read_all(source),
        Err(fault) => Err(fault),
    }
}

/// Writes a row for each listed word of the part of the input that FILE names, and then the hints as [`decode_file`]
/// does. `bits` are the bytes of the file of the tags, if there is one.
fn list_file<I: Inputs, W: Sink, E: Sink>(
    input: InputForm,
    format: Format,
    values: DecodeValues<'_>,
    bits: Option<&[u8]>,
    hints: bool,
    inputs: &mut I,
    source: &mut I::Opened,
    file: Option<&str>,
    sink: &mut W,
    errors: &mut E,
) -> Result<Summary, Fault>
    requires source { (I.Opened.state source.old).has_failed ≡ false }
    requires inputs { I.has_refused inputs.old ≡ false }
    requires sink { (W.state sink.old).has_failed ≡ false }
    requires errors { (E.state errors.old).has_failed ≡ false }
    ensures lists { OnOutput (I.bytes_of inputs.old) (I.Opened.state source.new) (W.state sink.old) (W.state sink.new)
        (λ console. FromInput (file_input file.entry) console (ListsWords (part_of values.entry)
        (options_of input format values.entry bits.entry))) result }
    ensures silent { ¬ IsTrue hints → errors.new ≡ errors.old }
    ensures unreported { OnErr result (errors.new ≡ errors.old) }
    ensures open { result ≡ Err Fault.Open → IsFile (file_input file.entry) }
    ensures memory { result ≢ Err Fault.Memory }
    ensures asked { (before : _) → I.requested inputs.old before ≡ true
        → I.requested inputs.new ((file_input file.entry, Content.Words) ∷ before) ≡ false
        → (inputs.new ≡ inputs.old) × (source.new ≡ source.old) }
    ensures end { IsEnd (I.has_refused inputs.new) (I.Opened.state source.new) (W.state sink.old) (W.state sink.new)
        result }
{
    let part = part_of(&values);
    let options = options_of(input, format, &values, bits);
    let result = list_words(part, options, inputs, source, file_input(file), sink);
    if result.is_err() {
        return result;
    }
    // the rows come first, and the source has passed the first bytes then, so the hint opens the file again
    hint_file(hints, input, values.skip, inputs, file_input(file), errors);
    result
}

/// Writes a row for each listed word of a part of an input. Bytes before the part are read only if the input cannot
/// pass them.
// not inlined, so that other commands do not touch the pages of its buffers on the stack
#[inline(never)]
fn list_words<I: Inputs, W: Sink>(
    part: Part,
    options: Options<'_>,
    inputs: &mut I,
    source: &mut I::Opened,
    input: InputName<'_>,
    sink: &mut W,
) -> Result<Summary, Fault>
    requires source { (I.Opened.state source.old).has_failed ≡ false }
    requires inputs { I.has_refused inputs.old ≡ false }
    requires sink { (W.state sink.old).has_failed ≡ false }
    ensures lists { OnOutput (I.bytes_of inputs.old) (I.Opened.state source.new) (W.state sink.old) (W.state sink.new)
        (λ console. FromInput input.entry console (ListsWords part options.entry)) result }
    ensures open { result ≡ Err Fault.Open → IsFile input.entry }
    ensures memory { result ≢ Err Fault.Memory }
    ensures asked { (before : _) → I.requested inputs.old before ≡ true
        → I.requested inputs.new ((input.entry, Content.Words) ∷ before) ≡ false
        → (inputs.new ≡ inputs.old) × (source.new ≡ source.old) }
    ensures end { IsEnd (I.has_refused inputs.new) (I.Opened.state source.new) (W.state sink.old) (W.state sink.new)
        result }
{
    let passed = inputs.open_after(input, Content::Words, part.skipped, source)?;
    let rest = Part {
        skipped: part.skipped - passed,
        count: part.count,
    };
    Ok(decode_words(rest, options, source, sink)?)
}

/// Copies the input that FILE names, with the line of each word after the word.
///
/// Requires: no device has failed.
/// Errors: `Open` if the input cannot be opened, and nothing was written then; `Read` if a read fails; `Write` if and
/// only if the sink failed.
pub fn annotate_file<I: Inputs, W: Sink>(
    inputs: &mut I,
    source: &mut I::Opened,
    file: Option<&str>,
    sink: &mut W,
) -> Result<Summary, Fault>
    requires source { (I.Opened.state source.old).has_failed ≡ false }
    requires inputs { I.has_refused inputs.old ≡ false }
    requires sink { (W.state sink.old).has_failed ≡ false }
    ensures annotates { OnOutput (I.bytes_of inputs.old) (I.Opened.state source.new) (W.state sink.old)
        (W.state sink.new)
        (λ console. FromInput (file_input file.entry) console AnnotatesWords) result }
    ensures open { result ≡ Err Fault.Open → IsFile (file_input file.entry) }
    ensures memory { result ≢ Err Fault.Memory }
    ensures asked { (before : _) → I.requested inputs.old before ≡ true
        → I.requested inputs.new ((file_input file.entry, Content.Words) ∷ before) ≡ false
        → (inputs.new ≡ inputs.old) × (source.new ≡ source.old) }
    ensures end { IsEnd (I.has_refused inputs.new) (I.Opened.state source.new) (W.state sink.old) (W.state sink.new)
        result }
{
    inputs.open(file_input(file), Content::Words, source)?;
    Ok(annotate(source, sink)?)
}

/// Writes the output of `round` for each length of the list that FILE names, with the bounds granted from a base, if
/// one is given. Then writes the hint on numbers to `errors`, if hints are given and the base or a line of the list may
/// be meant as hexadecimal digits.
///
/// Requires: no device has failed.
/// Errors: `Open` if the input cannot be opened, and nothing was written then; `Read` if a read fails; `Write` if and
/// only if the sink failed. No hint is written then.
pub fn round_file<I: Inputs, W: Sink, E: Sink>(
    base: Option<Base<'_>>,
    hints: bool,
    inputs: &mut I,
    source: &mut I::Opened,
    file: Option<&str>,
    sink: &mut W,
    errors: &mut E,
) -> Result<Summary, Fault>
    requires source { (I.Opened.state source.old).has_failed ≡ false }
    requires inputs { I.has_refused inputs.old ≡ false }
    requires sink { (W.state sink.old).has_failed ≡ false }
    requires errors { (E.state errors.old).has_failed ≡ false }
    ensures rounds { OnDevices (FromInput (file_input file.entry)
        (console_of (I.bytes_of inputs.old) (I.Opened.state source.new) (W.state sink.old) (W.state sink.new)
        (E.state errors.old) (E.state errors.new)) (RoundsLengths base.entry hints)) result }
    ensures silent { ¬ IsTrue hints → errors.new ≡ errors.old }
    ensures unreported { OnErr result (errors.new ≡ errors.old) }
    ensures open { result ≡ Err Fault.Open → IsFile (file_input file.entry) }
    ensures memory { result ≢ Err Fault.Memory }
    ensures asked { (before : _) → I.requested inputs.old before ≡ true
        → I.requested inputs.new ((file_input file.entry, Content.Words) ∷ before) ≡ false
        → (inputs.new ≡ inputs.old) × (source.new ≡ source.old) }
    ensures end { IsEnd (I.has_refused inputs.new) (I.Opened.state source.new) (W.state sink.old) (W.state sink.new)
        result }
{
    let mut bare = false;
    let address = address_of(base);
    let result = round_input(address, inputs, source, file_input(file), sink, &mut bare);
    if result.is_err() {
        return result;
    }
    hint_numbers(hints, base, bare, errors);
    result
}

/// Writes the output of `round` for each length of the list of an input. At `Ok`, `bare` is whether a line may be meant
/// as hexadecimal digits.
fn round_input<I: Inputs, W: Sink>(
    base: Option<u64>,
    inputs: &mut I,
    source: &mut I::Opened,
    input: InputName<'_>,
    sink: &mut W,
    bare: &mut bool,
) -> Result<Summary, Fault>
    requires source { (I.Opened.state source.old).has_failed ≡ false }
    requires inputs { I.has_refused inputs.old ≡ false }
    requires sink { (W.state sink.old).has_failed ≡ false }
    ensures rounds { OnOutput (I.bytes_of inputs.old) (I.Opened.state source.new) (W.state sink.old) (W.state sink.new)
        (λ console. FromInput input.entry console (SeesLengths base bare.new)) result }
    ensures open { result ≡ Err Fault.Open → IsFile input.entry }
    ensures memory { result ≢ Err Fault.Memory }
    ensures asked { (before : _) → I.requested inputs.old before ≡ true
        → I.requested inputs.new ((input.entry, Content.Words) ∷ before) ≡ false
        → (inputs.new ≡ inputs.old) × (source.new ≡ source.old) }
    ensures end { IsEnd (I.has_refused inputs.new) (I.Opened.state source.new) (W.state sink.old) (W.state sink.new)
        result }
{
    inputs.open(input, Content::Words, source)?;
    Ok(round_list(base, source, sink, bare)?)
}
