//! What a line is marked with, so that kinds of lines are told apart by sign, word and edge, and not by colour alone.

ghost use Rattle.std.specs.Prelude.{◌≡◌, ◌++◌, OnOk};
ghost use Rattle.aa_page.specs.Marks.{class_of, sign_of, word_of, mark_text};

use aa_text::push_text;
use std::alloc::AllocError;

/// What a line is marked with.
#[derive(Clone, Copy)]
pub enum Mark {
    Gain,
    Loss,
    Other,
    PassedOver,
    /// A rule of the old policy.
    Old,
    /// A rule of the new policy.
    New,
}

/// The class by which its looks are told.
pub(crate) fn class_of(mark: Mark) -> &'static str
    ensures { result.now ≡ class_of mark }
{
    match mark {
        Mark::Gain => "gain",
        Mark::Loss => "loss",
        Mark::Other => "other",
        Mark::PassedOver => "passed",
        Mark::Old => "old",
        Mark::New => "new",
    }
}

fn sign_of(mark: Mark) -> &'static str
    ensures { result.now ≡ sign_of mark }
{
    match mark {
        Mark::Gain | Mark::New => "+",
        Mark::Loss | Mark::Old => "-",
        Mark::Other => "~",
        Mark::PassedOver => "?",
    }
}

fn word_of(mark: Mark) -> &'static str
    ensures { result.now ≡ word_of mark }
{
    match mark {
        Mark::Gain => "gain",
        Mark::Loss => "loss",
        Mark::Other => "other",
        Mark::PassedOver => "passed over",
        Mark::Old => "OLD",
        Mark::New => "NEW",
    }
}

/// Appends a sign and a word.
#[tactic(auto, unfolding(crate::specs::Marks::mark_text))]
pub(crate) fn push_mark(out: &mut Vec<u8>, mark: Mark) -> Result<(), AllocError>
    ensures { OnOk result (out.new.items ≡ out.old.items ++ mark_text mark) }
{
    push_text(out, "<b>")?;
    push_text(out, sign_of(mark))?;
    push_text(out, " ")?;
    push_text(out, word_of(mark))?;
    push_text(out, "</b> ")
}
