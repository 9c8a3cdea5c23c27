//! The lines of logs, one after another.

ghost use Rattle.std.specs.Prelude.{◌≡◌, ℕ, ◌+◌, ◌≤◌, ⊤, List, [], ◌∷◌, ◌++◌, length, map, OnOk, IfOk, OnErr, IfSome};
ghost use Rattle.std.specs.List.{prefix_len};
ghost use Rattle.std.specs.Io.{ReadsAtMost};
ghost use Rattle.std.specs.Io.KnownBytes.{ReadConsumes};
ghost use Rattle.aa_logs.specs.LogLines.{LogLine, log_line, kept, numbered, log_lines, is_in_line, ended, left_open, last_line};

use aa_base::Unread;
use memchr::memchr;
use std::alloc::{AllocError, Global};
use std::fs::File;
use std::io::{ErrorKind, Read};

/// One byte more than a line may have.
const MOST: usize = 65537;

/// How many bytes of a log are read at once.
const CHUNK: usize = 65536;

/// What is done with each line of a log.
pub trait Lines {
    /// Which log of the command line's is read, from 0.
    ghost log: { Self → ℕ } = { λ _. 0 };

    /// It may be what has taken these lines and no others.
    ghost has_taken: { Self → List LogLine → Type 0 } = { λ _ _. ⊤ };

    /// What it has kept of an earlier state, as its settings.
    ghost keeps: { Self → Self → Type 0 } = { λ _ _. ⊤ };

    /// Takes a line without its end, by its number from 1. Refused where memory runs out, and where the lines ask too much.
    fn take_line(&mut self, alloc: Global, line: &[u8], number: u64) -> Result<(), Unread>
        ensures log { OnOk result (log self.new ≡ log self.old) }
        ensures keeps { OnOk result ((first : Self) → keeps first self.old → keeps first self.new) }
        ensures taken { OnOk result ((before : List LogLine) → has_taken self.old before → has_taken self.new (before ++ log_line (log self.old) number line.now ∷ [])) };
}

/// The line that is being read, as far as it is kept, and its number.
#[derive(Drop)]
struct OpenLine {
    bytes: Vec<u8>,
    number: u64,
}

/// Reads some bytes, again where a signal interrupts it; none at the log's end alone.
fn read_some<R: Read>(reader: &mut R, buffer: &mut [u8]) -> Result<usize, Unread>
    ensures bound { ReadsAtMost result buffer.new }
    ensures bytes { ReadConsumes (R.remaining reader.old) (R.remaining reader.new) result buffer.new }
{
    for _ in 0..u64::MAX {
        match reader.read(buffer) {
            Ok(n) => return Ok(n),
            Err(e) => {
                if e.kind() != ErrorKind::Interrupted {
                    return Err(Unread::from(e));
                }
            }
        }
    }
    Err(Unread::Failed)
}

/// Adds what there is room for.
fn keep(line: &mut Vec<u8>, bytes: &[u8]) -> Result<(), AllocError>
    requires { length line.old.items ≤ 65537 }
    ensures ok { OnOk result (line.new.items ≡ kept (line.old.items ++ bytes.now)) }
    ensures room { OnOk result (length line.new.items ≤ 65537) }
{
    let room = MOST - line.len();
    let taken = room.min(bytes.len());
    line.extend_from_slice(&bytes[..taken])?;
    Ok(())
}

/// How many bytes stand before the first line end.
fn line_len(bytes: &[u8]) -> usize
    ensures count { result ≡ prefix_len is_in_line bytes.now }
    ensures within { result ≤ length bytes.now }
{
    memchr(b'\n', bytes).unwrap_or(bytes.len())
}

/// Hands a line on that is held as far as it is kept.
fn hand_held<L: Lines>(
    alloc: Global,
    held: &mut OpenLine,
    bytes: &[u8],
    lines: &mut L,
) -> Result<(), Unread>
    requires { length held.old.bytes.items ≤ 65537 }
    ensures number { OnOk result (held.new.number ≡ held.old.number) }
    ensures log { OnOk result (L.log lines.new ≡ L.log lines.old) }
    ensures keeps { OnOk result ((first : L) → L.keeps first lines.old → L.keeps first lines.new) }
    ensures taken { OnOk result ((before : List LogLine) → L.has_taken lines.old before → L.has_taken lines.new (before ++ log_line (L.log lines.old) held.old.number (kept (held.old.bytes.items ++ bytes.now)) ∷ [])) }
{
    keep(&mut held.bytes, bytes)?;
    lines.take_line(alloc, held.bytes.as_slice(), held.number)
}

/// Hands a line on whose last bytes these are: as it stands where nothing of it is held and there is room for it.
fn hand_on<L: Lines>(
    alloc: Global,
    held: &mut OpenLine,
    bytes: &[u8],
    lines: &mut L,
) -> Result<(), Unread>
    requires { length held.old.bytes.items ≤ 65537 }
    ensures number { OnOk result (held.new.number ≡ held.old.number) }
    ensures log { OnOk result (L.log lines.new ≡ L.log lines.old) }
    ensures keeps { OnOk result ((first : L) → L.keeps first lines.old → L.keeps first lines.new) }
    ensures taken { OnOk result ((before : List LogLine) → L.has_taken lines.old before → L.has_taken lines.new (before ++ log_line (L.log lines.old) held.old.number (kept (held.old.bytes.items ++ bytes.now)) ∷ [])) }
{
    if held.bytes.as_slice().is_empty() && bytes.len() <= MOST {
        return lines.take_line(alloc, bytes, held.number);
    }
    hand_held(alloc, held, bytes, lines)
}

/// Hands a line on whose last bytes these are, and begins the next.
fn end_line<L: Lines>(
    alloc: Global,
    held: &mut OpenLine,
    bytes: &[u8],
    lines: &mut L,
) -> Result<(), Unread>
    requires { length held.old.bytes.items ≤ 65537 }
    ensures bytes { OnOk result (held.new.bytes.items ≡ []) }
    ensures number { OnOk result (held.new.number ≡ held.old.number + 1) }
    ensures log { OnOk result (L.log lines.new ≡ L.log lines.old) }
    ensures keeps { OnOk result ((first : L) → L.keeps first lines.old → L.keeps first lines.new) }
    ensures taken { OnOk result ((before : List LogLine) → L.has_taken lines.old before → L.has_taken lines.new (before ++ log_line (L.log lines.old) held.old.number (kept (held.old.bytes.items ++ bytes.now)) ∷ [])) }
{
    hand_on(alloc, held, bytes, lines)?;
    let Some(number) = held.number.checked_add(1) else {
        return Err(Unread::TooLarge);
    };
    held.bytes.clear();
    held.number = number;
    Ok(())
}

/// Hands the lines on that end among these bytes, and keeps what stands behind.
fn take_ended<L: Lines>(
    alloc: Global,
    held: &mut OpenLine,
    bytes: &[u8],
    lines: &mut L,
) -> Result<(), Unread>
    requires { length held.old.bytes.items ≤ 65537 }
    ensures bytes { OnOk result (held.new.bytes.items ≡ kept (left_open held.old.bytes.items bytes.now)) }
    ensures room { OnOk result (length held.new.bytes.items ≤ 65537) }
    ensures number { OnOk result (held.new.number ≡ held.old.number + length (ended held.old.bytes.items bytes.now)) }
    ensures log { OnOk result (L.log lines.new ≡ L.log lines.old) }
    ensures keeps { OnOk result ((first : L) → L.keeps first lines.old → L.keeps first lines.new) }
    ensures taken { OnOk result ((before : List LogLine) → L.has_taken lines.old before → L.has_taken lines.new (before ++ numbered (L.log lines.old) held.old.number (map kept (ended held.old.bytes.items bytes.now)))) }
{
    let mut rest = bytes;
    'lines: loop {
        let (line, behind) = rest.split_at(line_len(rest));
        let [_, after @ ..] = behind else {
            return Ok(keep(&mut held.bytes, line)?);
        };
        end_line(alloc, held, line, lines)?;
        rest = after;
    }
}

/// Hands the last line on where it has no end, unless it is empty.
fn take_last<L: Lines>(alloc: Global, held: &OpenLine, lines: &mut L) -> Result<(), Unread>
    ensures log { OnOk result (L.log lines.new ≡ L.log lines.old) }
    ensures keeps { OnOk result ((first : L) → L.keeps first lines.old → L.keeps first lines.new) }
    ensures taken { OnOk result ((before : List LogLine) → L.has_taken lines.old before → L.has_taken lines.new (before ++ numbered (L.log lines.old) held.now.number (last_line held.now.bytes.items))) }
{
    let bytes = held.bytes.as_slice();
    if bytes.is_empty() {
        return Ok(());
    }
    lines.take_line(alloc, bytes, held.number)
}

/// Hands on each line that a reader gives.
fn read_lines<R: Read, L: Lines>(alloc: Global, reader: &mut R, lines: &mut L) -> Result<(), Unread>
    ensures log { OnOk result (L.log lines.new ≡ L.log lines.old) }
    ensures keeps { OnOk result ((first : L) → L.keeps first lines.old → L.keeps first lines.new) }
    ensures taken { OnOk result (IfSome (R.remaining reader.old) (λ bytes. (before : List LogLine) → L.has_taken lines.old before → L.has_taken lines.new (before ++ log_lines (L.log lines.old) bytes))) }
    ensures some { OnOk result ((bytes : List ℕ) × ((before : List LogLine) → L.has_taken lines.old before → L.has_taken lines.new (before ++ log_lines (L.log lines.old) bytes))) }
{
    let mut held = OpenLine {
        bytes: Vec::new(alloc),
        number: 1,
    };
    let mut buffer = [0u8; CHUNK];
    for _ in 0..u64::MAX {
        let n = read_some(reader, &mut buffer)?;
        if n == 0 {
            return take_last(alloc, &held, lines);
        }
        take_ended(alloc, &mut held, &buffer[..n], lines)?;
    }
    Err(Unread::Failed)
}

/// Hands each line of a log on; the path `-` is standard input.
pub fn read_log<L: Lines>(rt: &HostRuntime, path: &[u8], lines: &mut L) -> Result<(), Unread>
    ensures log { OnOk result (L.log lines.new ≡ L.log lines.old) }
    ensures keeps { OnOk result ((first : L) → L.keeps first lines.old → L.keeps first lines.new) }
    ensures taken { OnOk result ((bytes : List ℕ) × ((before : List LogLine) → L.has_taken lines.old before → L.has_taken lines.new (before ++ log_lines (L.log lines.old) bytes))) }
{
    let alloc = rt.alloc();
    if path == "-".as_bytes() {
        let mut reader = rt.reader();
        return read_lines(alloc, &mut reader, lines);
    }
    let Ok(text) = std::str::from_utf8(path) else {
        return Err(Unread::NotFound);
    };
    let mut reader = File::open(rt, text)?;
    read_lines(alloc, &mut reader, lines)
}
