//! Reads a whole input, and writes a whole text.

ghost use Rattle.std.specs.Prelude.{◌≡◌, ◌≢◌, ℕ, ◌+◌, ◌++◌, ◌≤◌, List, flat_map, length, take, drop, OnOk, OnErr, IfOk, IfErr, IfSome};
ghost use Rattle.std.specs.Io.KnownBytes.{Appends};
ghost use Rattle.std.specs.String.{string_bytes};
ghost use Rattle.aa_engine.specs.Faults.{IsReadCause};

use crate::fault::RunFault;
use std::alloc::Global;
use std::io::{Read, Write};

/// How many bytes of an input are kept.
pub const KEPT: usize = 16777217;

const MAX_READS: u32 = 33554432;

/// The front of the input, as far as it is kept. It is read to its end.
pub fn read_input<R: Read>(alloc: Global, reader: &mut R) -> Result<Vec<u8>, RunFault>
    ensures kept { IfOk result (λ kept. IfSome (R.remaining reader.old) (λ input. kept.items ≡ take 16777217 input)) }
    ensures cause { IfErr result IsReadCause }
{
    let mut kept = Vec::new(alloc);
    let mut buffer = [0u8; 65536];
    for _ in 0..MAX_READS {
        let Ok(n) = reader.read(&mut buffer) else {
            return Err(RunFault::Read);
        };
        if n == 0 {
            return Ok(kept);
        }
        keep(&mut kept, &buffer[..n])?;
    }
    Err(RunFault::Read)
}

/// Adds what there is room for.
fn keep(kept: &mut Vec<u8>, bytes: &[u8]) -> Result<(), RunFault>
    requires { length kept.old.items ≤ 16777217 }
    ensures ok { OnOk result (kept.new.items ≡ take 16777217 (kept.old.items ++ bytes.now)) }
    ensures room { OnOk result (length kept.new.items ≤ 16777217) }
    ensures cause { IfErr result (λ e. e ≡ RunFault.NoMemory) }
{
    let room = KEPT - kept.len();
    let taken = room.min(bytes.len());
    kept.extend_from_slice(&bytes[..taken])?;
    Ok(())
}

/// Writes the text, all of it or a front of it.
pub fn write_text<W: Write>(writer: &mut W, text: &[u8]) -> Result<(), RunFault>
    ensures ok { OnOk result (Appends (W.contents writer.old) (W.contents writer.new) text.now) }
    ensures err { OnErr result ((n : ℕ) × (n ≤ length text.now)
        × Appends (W.contents writer.old) (W.contents writer.new) (take n text.now)) }
    ensures cause { IfErr result (λ e. e ≡ RunFault.Write) }
{
    let mut at = 0;
    'writes: while at < text.len() {
        match writer.write(&text[at..]) {
            Ok(0) => return Err(RunFault::Write),
            Ok(n) => at += n,
            Err(_) => return Err(RunFault::Write),
        }
    }
    Ok(())
}

/// Writes the parts of a text one behind the other, all of them or a front.
pub fn write_parts<W: Write>(writer: &mut W, parts: &[String]) -> Result<(), RunFault>
    ensures ok { OnOk result (Appends (W.contents writer.old) (W.contents writer.new) (flat_map string_bytes parts.now)) }
    ensures err { OnErr result ((n : ℕ) × (n ≤ length (flat_map string_bytes parts.now))
        × Appends (W.contents writer.old) (W.contents writer.new) (take n (flat_map string_bytes parts.now))) }
    ensures cause { IfErr result (λ e. e ≡ RunFault.Write) }
{
    for part in parts {
        if let Err(fault) = write_text(writer, part.as_bytes()) {
            return Err(fault);
        }
    }
    Ok(())
}
