//! What is handed out for a question.

ghost use Rattle.std.specs.Prelude.{◌≡◌, length, MatchResult};
ghost use Rattle.aa_command.specs.Printed.{printed};
ghost use Rattle.aa_library.specs.Questioned.{HandsPrinted, Hands, HandsNothing};

use crate::handing::{Sizes, TOO_SMALL, hand_front, put};
use aa_command::Output;
use aa_text::NoMemory;

/// What is said where memory ran out, as the program says it.
const NO_MEMORY: &str = "no memory\n";

/// The status that memory ran out.
const FAILED: u32 = 3;

/// Hands out what is printed, if the buffer has room for the answers. Else nothing is written.
fn hand_printed(output: &Output, text: &mut [u8], fault: &mut [u8]) -> u32
    ensures { HandsPrinted (printed output.now) text.old text.new fault.old fault.new result }
{
    let answers = output.answers.as_slice();
    if answers.len() > text.len() {
        return TOO_SMALL;
    }
    put(answers, text);
    hand_front(output.faults.as_slice(), fault);
    output.status as u32
}

/// Hands out what is printed, and tells how many bytes it has.
fn hand_output(output: &Output, text: &mut [u8], fault: &mut [u8], sizes: &mut Sizes) -> u32
    ensures { Hands (printed output.now) text.old text.new fault.old fault.new sizes.new result }
{
    *sizes = Sizes {
        text: output.answers.len(),
        fault: output.faults.len(),
    };
    hand_printed(output, text, fault)
}

/// Says that there is no memory.
fn hand_nothing(text: &mut [u8], fault: &mut [u8], sizes: &mut Sizes) -> u32
    ensures { HandsNothing text.old text.new fault.old fault.new sizes.new result }
{
    *sizes = Sizes {
        text: 0,
        fault: NO_MEMORY.len(),
    };
    hand_front(NO_MEMORY.as_bytes(), fault);
    FAILED
}

/// Hands out what is answered, or that memory ran out.
pub fn hand(
    made: Result<Output, NoMemory>,
    text: &mut [u8],
    fault: &mut [u8],
    sizes: &mut Sizes,
) -> u32
    ensures { MatchResult made (λ out. Hands (printed out) text.old text.new fault.old fault.new sizes.new result)
        (λ _. HandsNothing text.old text.new fault.old fault.new sizes.new result) }
{
    match made {
        Ok(output) => hand_output(&output, text, fault, sizes),
        Err(NoMemory) => hand_nothing(text, fault, sizes),
    }
}
