//! The help texts of the program, its commands and their arguments.

pub(crate) const VERSION: &str = "0.4.0\nCHERI Concentrate, 128 bits, CHERI ISA version 9";

pub(crate) const ABOUT: &str =
    "Decodes and derives 128-bit CHERI Concentrate capabilities, and plans the objects of a pool";

pub(crate) const AFTER_HELP: &str = "\
A first plan: 100 bytes from a pool of the 65536 bytes from 0x10000
  echo alloc 100 | cheri-cap plan 0x10000 65536

The last line of its output has the word of the capability for them:
  cheri-cap show ffff0000041880040000000000010000

`cheri-cap help COMMAND` prints the help of a command.

The exit status is 0, or 1 if a reply is an error, 2 for an invalid command line, and 3 if the
program ran out of memory, a file cannot be opened, or its input or output failed.";

pub(crate) const SHOW_USAGE: &str = "cheri-cap show [OPTIONS] <WORD>";

/// The message if the values of `show` do not go together.
pub(crate) const SHOW_CHOICE: &str = "give either `--line` or `--format`";

pub(crate) const EXPLAIN_USAGE: &str = "\
cheri-cap explain [--svg] <WORD>
       cheri-cap explain --length <N> [--base <B>]";

/// The message if the values of `explain` do not go together.
pub(crate) const EXPLAIN_CHOICE: &str =
    "give either WORD and optionally `--svg`, or `--length N` and optionally `--base B`";

pub(crate) const ROUND_USAGE: &str = "\
cheri-cap round [--base <B>] <N>
       cheri-cap round [--base <B>] --list <FILE>";

/// The message if the values of `round` do not go together.
pub(crate) const ROUND_CHOICE: &str = "give either N or `--list FILE`";

/// The form of an address, for the message of an error.
pub(crate) const ADDRESS_FORM: &str =
    "want a number below 2^64: decimal digits, or 0x and hexadecimal digits";

/// The form of permissions, for the message of an error.
pub(crate) const PERMISSIONS_FORM: &str =
    "want names of permissions joined by `+`, as `LOAD+STORE_CAP`, or `-` for none";

pub(crate) const DECODE_USAGE: &str = "cheri-cap decode [OPTIONS] [FILE]";

/// The message if `--tags` is given without `--bytes`.
pub(crate) const TAGS_CHOICE: &str = "give `--bytes ORDER` with `--tags FILE`";

/// The message if `--elf` is given with an option of raw words.
pub(crate) const ELF_CHOICE: &str =
    "give `--elf` without `--bytes`, `--skip`, `--count`, `--at` and `--tags`";

/// The subject of the help of an argument.
#[derive(Clone, Copy)]
pub(crate) enum Topic {
    Line,
    ShownFormat,
    Word,
    Length,
    List,
    RoundBase,
    Slots,
    Stats,
    File,
    Align,
    Base,
    PoolLength,
    Svg,
    Format,
    Bytes,
    Elf,
    Skip,
    Count,
    At,
    Holds,
    Permissions,
    Unsealed,
    Tags,
    WordsFile,
    WindowSvg,
    TextFile,
    RequestLength,
    RequestBase,
    TraceFormat,
    Realloc,
    Sweep,
    Least,
    Pool,
    Strict,
    Summary,
    Each,
    Sizes,
    Chart,
    Script,
    TraceFile,
}

/// The command of a help text.
#[derive(Clone, Copy)]
pub(crate) enum HelpPage {
    /// The command `show`.
    Show,
    /// The command `round`.
    Round,
    /// The command `run`.
    Run,
    /// The command `plan`.
    Plan,
    /// The command `map`.
    Map,
    /// The command `decode`.
    Decode,
    /// The command `annotate`.
    Annotate,
    /// The command `replay`.
    Replay,
    /// The command `explain`.
    Explain,
}

/// Returns the help of an argument.
pub(crate) fn help<'a>(topic: Topic) -> &'a str {
    match topic {
        Topic::Line => "Show the word on one line: its address, permissions, base and top",
        Topic::ShownFormat => "Show the word in a format of `cheri-cap decode`; not with --line",
        Topic::Word => "\
The word: its 128 bits as 32 hexadecimal digits, the highest first, in either case",
        Topic::Length => "\
A length in bytes, at most 2^64: decimal digits, or 0x and hexadecimal digits of either case. Put 0x
before a hexadecimal size that has none, as `nm -S` prints it",
        Topic::List =>
            "Read N from each line of FILE, alone or before a space and its own B; `-` is standard input",
        Topic::RoundBase =>
            "Also show the bounds granted to N bytes from address B; B is a number below 2^64, like N",
        Topic::Slots => "\
Maximum number of slots, and of objects, from 1 to 65536 [default: 4096]",
        Topic::Stats =>
            "Print a summary, and the hints for a terminal, on standard error when the script ends",
        Topic::File => "Script file; standard input if `-` or omitted",
        Topic::Align => "\
Minimum alignment of the bounds of each object in bytes [default: 1]",
        Topic::Base => "\
The first address of the pool: decimal digits, or 0x and hexadecimal digits of either case",
        Topic::PoolLength => "The pool's length in bytes, at most 2^64, in the form of BASE",
        Topic::Svg => "Draw a picture for a page or a paper, as an SVG document",
        Topic::Format => "\
Output format: `columns`; `text`, the one-line form of debuggers; `fixed`, columns of fixed width;
`csv`, comma-separated values; or `json`, an object for each word [default: columns]",
        Topic::Bytes => "\
Read raw words of 16 bytes, the lowest byte first or the highest
[default: lines of digits]",
        Topic::Elf =>
            "Read a core file: the words in the segments of an ELF64 file, each with its address",
        Topic::Skip =>
            "Number of bytes at the start of the input that are not decoded [default: 0]",
        Topic::Count => "Maximum number of words, or of lines, that are decoded [default: all]",
        Topic::At => "Print the address of each word; the first is at START",
        Topic::Holds => "List only words that could be capabilities to ADDRESS",
        Topic::Permissions =>
            "List only words that could be capabilities with these permissions, joined by `+`",
        Topic::Unsealed => "List only words that could be unsealed capabilities",
        Topic::Tags =>
            "List only words whose bit is set in FILE: one for each 16 bytes of the input, the lowest of a byte first",
        Topic::WordsFile => "File of words; standard input if `-` or omitted",
        Topic::WindowSvg =>
            "Draw the window of WORD, with its bounds and address, as an SVG document, and print no lines",
        Topic::TextFile => "File of text; standard input if `-` or omitted",
        Topic::RequestLength => "\
Explain bounds of N bytes, at most 2^64: decimal digits, or 0x and hexadecimal digits of either case.
Put 0x before a hexadecimal size that has none, as `nm -S` prints it",
        Topic::RequestBase => "The first address of the N bytes, in the form of N [default: 0]",
        Topic::TraceFormat => "\
Format of the trace: `own`, or that of another recorder: `mtrace` of the GNU C library, `heaptrack`
(the raw file of `heaptrack -r`), or `ltrace` [default: own]",
        Topic::Realloc => "\
Effect of a realloc: `move` (the new object is placed while the old one is held), or `keep` (an
object whose padded size and alignment stay right keeps its bytes) [default: move]",
        Topic::Sweep => "\
When the quarantine is swept: `none` (there is no quarantine), `never`, `trace` (at each event `s`);
N%, N%:live or N%:high (if more than N percent of the held bytes, of the live bytes, or of the
high-water mark are quarantined); bytes:N or frees:N (if at least N bytes or objects are); up to 8
policies with commas between print a table with a row for each, from one pass [default: 25%]",
        Topic::Least =>
            "Number of quarantined bytes below which the policy does not sweep [default: 0]",
        Topic::Pool => "\
Bytes in which objects are placed: the first address and the length, each in decimal or with 0x
[default: 2^44 and all above]",
        Topic::Strict => "Stop at the first refused line",
        Topic::Summary => "Format of the summary [default: text]",
        Topic::Each => "\
Print a series instead of the summary, as comma-separated values: a sample at every N-th event, at
each event that sweeps, and at the end; its last column is `each`, `sweep` or `end`",
        Topic::Sizes => "\
Print a table of the placed objects instead of the summary, in its format: a row for each power of
two of their sizes; not with --each, --svg or --script",
        Topic::Chart => "\
Print a chart of the heap over the events instead of the summary, as SVG for a page: the live,
quarantined and held bytes, and the high-water mark, under a line with the policy and the alignment;
not with --each, --sizes or --script",
        Topic::Script => "\
Print the changes of the heap as a script instead of the summary: `plan --slots 65536` with this
alignment and this pool, if its bounds are exact, places each object at the same bytes; not with
--each, --sizes, --svg or --realloc keep",
        Topic::TraceFile => "Trace file; standard input if `-` or omitted",
    }
}

/// Returns the summary of a command.
pub(crate) fn about<'a>(page: HelpPage) -> &'a str {
    match page {
        HelpPage::Show => "Shows the fields of a capability word, one on each line",
        HelpPage::Round => "Shows the size and alignment to reserve for an allocation of N bytes",
        HelpPage::Run => "Runs a script on a new machine, and prints a reply for each of its lines",
        HelpPage::Plan =>
            "Runs a script on a machine whose pool of memory is the LENGTH bytes from BASE",
        HelpPage::Map =>
            "Runs a script on a machine with a pool, as plan does, and prints a map of the pool at its end",
        HelpPage::Decode => "Decodes words, one on each line",
        HelpPage::Annotate =>
            "Copies text, and inserts the one-line form of each capability word after it",
        HelpPage::Replay =>
            "Replays the trace of an allocator on a heap with exact bounds, and prints the heap's numbers",
        HelpPage::Explain =>
            "Explains how a capability word is decoded, step by step, or which bounds a request is granted",
    }
}

/// Returns the usage of a command, if it is not the one that follows from its arguments.
pub(crate) fn usage<'a>(page: HelpPage) -> Option<&'a str> {
    match page {
        HelpPage::Explain => Some(EXPLAIN_USAGE),
        _ => None,
    }
}

/// Returns the help text after a command's arguments.
pub(crate) fn after_help<'a>(page: HelpPage) -> &'a str {
    match page {
        HelpPage::Show => "\
The word is in its memory form, in which the null capability is all zeros. Any 32 digits are a word,
without 0x before them; with --line or --format, they may have it. For any other input, prints
`error 1 syntax`, in json as an object, with exit status 1. With --format, prints what
`cheri-cap decode` prints for a line with the word in it.

The line shows a word as a tagged one: LOAD is r, STORE w, EXECUTE x, LOAD_CAP R and STORE_CAP W.
(sentry) or (sealed) follows the bounds for a type that is not unsealed.

Example:
  cheri-cap show --line ffff0000048190040000000000001000
  0x1000 [rwxRW,0x1000-0x1200]

  cheri-cap show --format json 02001fffc48190040000000000001000
  {\"word\":\"02001fffc48190040000000000001000\",\"perms\":\"0200\",\"names\":[\"UNSEAL\"],\"reserved\":0,\"flag\":0,\"type\":\"00007\",\"address\":\"0x1000\",\"exponent\":0,\"base\":\"0x1000\",\"top\":\"0x1200\",\"canonical\":true}",
        HelpPage::Round => "\
The output is one line, `round LENGTH GRANULE MASK`, with each number in hexadecimal:
  LENGTH   the number of bytes to reserve: N rounded up for exact bounds
  GRANULE  their alignment: they begin at an address that is a multiple of this
  MASK     rounds an address down to such a multiple, as `address & MASK`
A capability for bytes placed this way grants exactly these bytes.

With --base, two more numbers follow, BASE and TOP: the bounds that are granted to N bytes at B.
They are exact if and only if BASE is B and TOP is B + N.

With --list, prints one line for each line of FILE, in order. For a line of more than 128 bytes,
prints `error 3 long`, and for an unterminated last line `error 2 unfinished`.

For input that is not a number, prints `error 1 syntax`, for one that is too large `error 4 range`, and
if B + N is above 2^64 `error 9 bounds`, each with exit status 1.

Examples:
  cheri-cap round 8191
  round 0x2000 0x10 0xfffffffffffffff0

  cheri-cap round --base 0x10068 8191
  round 0x2000 0x10 0xfffffffffffffff0 0x10060 0x12070

  printf '8191\\n5000\\n' | cheri-cap round --list -
  round 0x2000 0x10 0xfffffffffffffff0
  round 0x1388 0x8 0xfffffffffffffff8",
        HelpPage::Run => "\
Slot 0 of the machine holds the capability for the whole address space. Each command that derives
a capability puts it into the next slot:
  addr S V, inc S V            another address, or V more
  bounds S N, exact S N        bounds of N bytes at the address; if these are inexact, `bounds`
                               rounds them and `exact` is refused
  perms S NAMES, flag S F      keep only the permissions NAMES; set the flag to F
  seal S A, unseal S A         sealed or unsealed by the authority in slot A
  rebuild A WORD               the capability of WORD, if slot A grants at least as much
Other commands:
  pool S [16]                  makes the bounds of slot S the pool, with alignment 16 or 1
  alloc N                      allocates an object of N bytes in the pool
  free J                       marks object J as freed; it holds its bytes until the next sweep
  sweep                        releases freed bytes, and revokes every slot of a freed object
  show S, round N              shows a slot, or the rounded length
For a line that is not a command, or whose command is refused, the reply is `error CODE NAME`, and
the next line runs. Slots and objects are numbered permanently, in order. A refused command uses no
number: take the numbers from the replies.

The exit status is 0, or 1 if a reply is an error, 2 for an invalid command line, and 3 if the
program ran out of memory, FILE cannot be opened, or its input or output failed.

Example:
  printf 'addr 0 0x1000\\nbounds 1 512\\n' | cheri-cap run
  slot 1 ffff0000000000000000000000001000 0x0 0x10000000000000000
  slot 2 ffff0000048190040000000000001000 0x1000 0x1200",
        HelpPage::Plan => "\
The machine is set up by `addr 0 BASE`, `exact 1 LENGTH` and `pool 2` (or `pool 2 16`), whose three
replies come first. They are errors if no capability has exactly these bounds, and the machine then
has no pool; `cheri-cap round LENGTH` shows a length and an alignment that are exact. The script
then runs, as with `cheri-cap run`. Slots and objects are numbered permanently, in order. A refused
`alloc` uses no number: take the numbers from the replies.

If BASE or LENGTH is not a number, prints `error 1 syntax`, and if one is too large `error 4 range`,
both with exit status 1. Then no script runs.

Example:
  printf 'alloc 100\\nfree 1\\nsweep\\n' | cheri-cap plan 0x10000 65536
  slot 1 ffff0000000000000000000000010000 0x0 0x10000000000000000
  slot 2 ffff0000000190000000000000010000 0x10000 0x20000
  pool 2 0x10000 0x20000
  object 1 slot 3 ffff0000041880040000000000010000 0x10000 0x10064 held 100
  freed 1 revoked 0 held 100
  swept 1 revoked 1 held 0",
        HelpPage::Map => "\
Prints no replies, but: the size of a cell; up to 16 rows of 64 cells that cover the pool, each row
after the address of its first cell; and the summary of `cheri-cap plan --stats`. A cell is `#` if
some of its bytes are live, `~` if some are freed and not swept yet, `*` if there are both, and `.`
if no object holds one.

With --svg, prints only a picture of the pool: an SVG document in which each held object is a
rectangle over the cells that hold a byte of it, at most 16 rows of 1024 cells. Live objects are
filled and freed ones striped, so they differ even without color.

BASE, LENGTH, the machine, the script and the exit status are the same as for `cheri-cap plan`.

Examples:
  printf 'alloc 20\\nalloc 9\\nfree 1\\n' | cheri-cap map 0x1000 64 | head -n 2
  cells of 0x1 bytes: # live, ~ quarantined, * both, . free
  0x1000 ~~~~~~~~~~~~~~~~~~~~#########...................................

  echo alloc 20 | cheri-cap map --svg 0x1000 64 | grep object
  <rect x='0' y='0' width='320' height='24'><title>object 1: 0x1000-0x1014</title></rect>",
        HelpPage::Decode => "\
Each line is a word: 32 hexadecimal digits of either case, with or without 0x in front of them. With
--bytes each 16 bytes are a word, as memory holds them: `little` for the order of CHERI-RISC-V.
Prints a line for each word, in order:
  columns   WORD BASE TOP PERMS FLAG TYPE EXPONENT CANONICAL, as `cheri-cap show` prints them
  text      ADDRESS [LETTERS,BASE-TOP], and `(sealed)` or `(sentry)`
  fixed     columns of fixed width, so that `sort` and `awk` compare them as numbers: BASE and TOP
            have 17 digits, EXPONENT has 2 hexadecimal digits, and CANONICAL is 1 or 0
  csv       a header, and then the values of the columns, ADDRESS and NAMES with commas between
  json      an object: the word, the fields and the bounds, ADDRESS, BASE and TOP as strings with 0x,
            since many readers round numbers above 2^53, and the names of the permissions as an array
For a line that is not a word, prints `error 1 syntax`. For an unterminated last line, or fewer than
16 trailing bytes, prints `error 2 unfinished`, after the line for the word if that line is one. In
json, an error is an object: {\"error\":1,\"name\":\"syntax\"}. Each word is decoded independently, so
parts of the input can be decoded separately; but with `--format csv` the output of each part begins
with the header.

With --at, the address of each word comes first, as a separate column: START for the first word after
the skipped bytes, and 16 more for each further word.

With --elf, lists the words of each loaded segment (PT_LOAD) that an ELF64 file has bytes of, as --at
does, in the order of its table and the byte order of its header: each 16 bytes at an address that is
a multiple of 16. The file is first read into memory as a whole. For one that is not ELF64, or has no
table of segments, or over 65534 of them, prints `error 1 syntax`; for one that ends before its table
or a loaded segment does, the words that it has, and then `error 2 unfinished`. It excludes --bytes,
--skip, --count, --at and --tags.

With --holds, --perms or --unsealed, lists only words that could be capabilities, since raw memory has
no tags: they are canonical, as 22 in 100 random words are, or a sentry that is once it is unsealed;
their bounds contain ADDRESS; and they have at least one permission, and all of NAMES. Null has no
permission, so it is never listed. TYPE is 3ffff for an unsealed word, 3fffe for a sentry, and another
for a sealed one; --unsealed omits sentries and sealed words. For a line that is not a word, prints
nothing, but the exit status is 1.

With --tags, lists only tagged words, which then need no permission. Bit i counts from the start of the
input, also after skipped bytes. If FILE has no bit for a word, prints nothing for it, but the exit
status is 1; further bits are ignored.

The exit status is 0, or 1 if a line of output is an error, 2 for an invalid command line, and 3 if the
program ran out of memory, a file cannot be opened, or its input or output failed.

Examples:
  printf 'ffff0000000f803d0000000000010070\\n02001fffc48190040000000000001000\\n' | cheri-cap decode
  ffff0000000f803d0000000000010070 0x10070 0x12070 ffff 0 3ffff 1 yes
  02001fffc48190040000000000001000 0x1000 0x1200 0200 0 00007 0 yes

  printf 'p\\0\\1\\0\\0\\0\\0\\0=\\200\\17\\0\\0\\0\\377\\377' | cheri-cap decode --bytes little --format text
  0x10070 [rwxRW,0x10070-0x12070]

  echo 02001fffc48190040000000000001000 | cheri-cap decode --format csv
  word,base,top,perms,flag,type,exponent,canonical,address,names
  02001fffc48190040000000000001000,0x1000,0x1200,0200,0,00007,0,yes,0x1000,UNSEAL

  printf 'no word\\n\\0\\0\\0\\0\\0\\0\\0\\0\\0\\0\\0\\0\\0\\0\\0\\0p\\0\\1\\0\\0\\0\\0\\0=\\200\\17\\0\\0\\0\\377\\377' | cheri-cap decode --bytes little --skip 8 --at 0x4000 --holds 0x10100
  0x4010 ffff0000000f803d0000000000010070 0x10070 0x12070 ffff 0 3ffff 1 yes",
        HelpPage::Annotate => "\
Prints the input, byte for byte, and after each word in it a space and the word's one-line form, like
`cheri-cap show --line`. A word is 32 hexadecimal digits of either case, or two halves of 16 digits
with `_` or `:` between, with or without 0x before. Digits next to a letter, another digit or an
underscore are not a word. Lines may have any length, and the input any bytes. Each word is shown as
a tagged one. Any 32 digits are a word, and so is a checksum of 128 bits.

The exit status is 0, 2 for an invalid command line, and 3 if FILE cannot be opened, or the input or
output failed.

Example:
  echo 'csp=0xffff0000000f803d0000000000010070 ok' | cheri-cap annotate
  csp=0xffff0000000f803d0000000000010070 0x10070 [rwxRW,0x10070-0x12070] ok",
        HelpPage::Replay => "\
Each line of the trace is an event:
  a ID SIZE [ALIGN]  allocates an object, like malloc and aligned_alloc
  c ID SIZE          allocates an object, like calloc
  r OLD NEW SIZE     allocates an object to replace OLD, like realloc; NEW may be OLD
  f ID               frees an object; its bytes stay held until the next sweep
  s, t NUMBER        requests a sweep; sets the time
Empty lines and lines that begin with `#` are ignored. Numbers are below 2^64: decimal digits, or 0x
and hexadecimal ones. ID names an object from its allocation to its free, and can be used again after
that. An object of SIZE bytes, or of one byte if SIZE is 0, takes its representable length at the
lowest place with the alignment that exact bounds need, or with ALIGN if that is larger. The policy
is examined after each free, and after each realloc that does not keep its object. If an object has
no place, the quarantine is swept once for it.

A line of `mtrace` is an event after the words `@ CALLER`, if it has them:
  + PTR SIZE             allocates an object; if PTR is (nil), it failed, and is counted as `failed`
  - PTR                  frees an object
  < PTR, > PTR SIZE      allocates an object to replace another: the old one, and the new one
  ! PTR SIZE             could not allocate an object to replace another; is counted as `failed`
Lines that begin with `=` are ignored. A pointer is an ID. A line of `heaptrack` is `+ SIZE TRACE
PTR`, `- PTR` or `c TIME` of a raw file, in hexadecimal. A line of `ltrace` is a call of malloc,
calloc, realloc or free with its result. All other lines are ignored.

The summary has counts of lines and events, sums over all placed objects, peaks of the held bytes,
the sweeps, and the heap at the end. It counts the refused lines by kind, and has the number of the
first line of each kind:
  syntax, range, unfinished   a line that is not an event
  unknown                     a free or a realloc of an ID that is not live
  live                        an allocation under a live ID, whose object is freed first
  noroom, full                an object that could not be placed
  lost                        an event on such an object

With --strict, each replay stops at its first refused line, and nothing is read after the chunk in
which the last one stops.

The exit status is 0, or 1 if a line is refused, 2 for an invalid command line, and 3 if the
program ran out of memory, FILE cannot be opened, or its input or output failed.

Example:
  printf 'a 1 100\\na 2 8191\\nf 1\\n' | cheri-cap replay --each 2
  line,event,time,made.asked,objects,asked,live,quarantine,held,peak.quarantine,peak.held,high,sweeps,why
  2,2,0,8291,2,8291,8292,0,8292,0,8292,8304,0,each
  3,3,0,8291,1,8191,8192,100,8292,100,8292,8304,0,end",
        HelpPage::Explain => "\
For a WORD, prints its fields, its exponent, granule and mantissas, its window, its base and top, and
whether it is canonical, and if not the reason. At every address in the window, a canonical word has
the same bounds. A picture of the window follows: 64 cells, eight for each of its eight sections. `#`
marks the cells with bytes of the bounds, and B, T and A mark the cells of the base, top and address.
A WORD may have 0x before its digits. For input that is not a word, prints `error 1 syntax`, with exit
status 1. With --svg, prints only a drawing of the window, with its sections, the bounds and the
address.

For N bytes at B, prints: the granule, the unit in which their bounds are stored, and why half of it
is too small; the granted bounds; the bytes lost before and after; the length and the alignment of
the base that lose none; the word of the root capability with these bounds. Prints `error 1 syntax`
if N is not a number, `error 4 range` if it is too large, and `error 9 bounds` if B + N is above
2^64, with exit status 1.

Example:
  cheri-cap explain --length 8191 --base 0x10068
  request   0x1fff bytes, from 0x10068 to 0x12067
  granule   0x10 bytes: the request touches 513 of them, and at most 1023 can be counted
  half      0x8 bytes: the request touches 1024 of them, and that is too many
  granted   0x2010 bytes, from 0x10060 to 0x12070
  lost      0x8 bytes before the request, and 0x9 behind it
  exact     0x2000 bytes, at a base that is a multiple of 0x10
  word      ffff0000000f80350000000000010068",
    }
}
