//! What is handed out for a job.

ghost use Rattle.std.specs.Prelude.{◌≡◌, List, ℕ, length, MatchResult};
ghost use Rattle.std.specs.String.{string_bytes};
ghost use Rattle.aa_engine.specs.Engines.{Explains};
ghost use Rattle.aa_library.specs.Answered.{Answers, Refuses, front_of};

use crate::fault_line::line_of;
use crate::handing::{Sizes, hand_front, hand_out};
use aa_engine::RunFault;
use std::alloc::{AllocError, Global};

/// Hands out a text.
fn hand_text(made: &str, text: &mut [u8], fault: &mut [u8], sizes: &mut Sizes) -> u32
    ensures { Answers made.now text.old text.new fault.old fault.new sizes.new result }
{
    *sizes = Sizes {
        text: made.len(),
        fault: 0,
    };
    hand_out(made.as_bytes(), 0, text)
}

/// Hands out a line, and no text.
fn hand_line(line: &str, fault: &mut [u8], sizes: &mut Sizes)
    ensures front { fault.new ≡ front_of line.now fault.old }
    ensures sizes { sizes.new ≡ record { text = 0; fault = length line.now } }
{
    *sizes = Sizes {
        text: 0,
        fault: line.len(),
    };
    hand_front(line.as_bytes(), fault);
}

/// Says that there is no memory.
fn say_no_memory(text: &mut [u8], fault: &mut [u8], sizes: &mut Sizes) -> u32
    ensures { Refuses RunFault.NoMemory text.old text.new fault.old fault.new sizes.new result }
{
    hand_line("no memory", fault, sizes);
    3
}

/// Says why there is no answer, or where that takes memory which isn't there, that there is none.
fn refuse(alloc: Global, why: RunFault, text: &mut [u8], fault: &mut [u8], sizes: &mut Sizes) -> u32
    ensures { (job : List ℕ) → Explains why job → (told : RunFault) × Explains told job × Refuses told text.old text.new fault.old fault.new sizes.new result }
{
    match line_of(alloc, why) {
        Ok(line) => {
            hand_line(line.as_str(), fault, sizes);
            why.status() as u32
        }
        Err(AllocError) => say_no_memory(text, fault, sizes),
    }
}

/// Hands out the text that was made, or says why there is none.
pub fn answer(
    alloc: Global,
    made: Result<String, RunFault>,
    text: &mut [u8],
    fault: &mut [u8],
    sizes: &mut Sizes,
) -> u32
    ensures { MatchResult made (λ made. Answers (string_bytes made) text.old text.new fault.old fault.new sizes.new result)
        (λ why. (job : List ℕ) → Explains why job → (told : RunFault) × Explains told job × Refuses told text.old text.new fault.old fault.new sizes.new result) }
{
    match made {
        Ok(made) => hand_text(made.as_str(), text, fault, sizes),
        Err(why) => refuse(alloc, why, text, fault, sizes),
    }
}
