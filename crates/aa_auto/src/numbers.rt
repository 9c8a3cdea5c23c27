//! Numbers in few bytes.

ghost use Rattle.std.specs.Prelude.{◌≡◌, ℕ, ◌++◌, ◌∷◌, ◌<◌, ◌≤◌, [], IfOk, OnOk, length, slice_index};
ghost use Rattle.aa_auto.specs.Numbers.{numbers_in, most_in};

use std::alloc::{AllocError, Global};
use std::marker::Model;

/// What a number may be kept as.
pub(crate) trait Width: Copy {
    /// The number that is kept.
    ghost number: { Self → ℕ };

    fn number(self) -> u32
        ensures { result ≡ number self };
}

impl Width for u8 {
    ghost number = { λ n. n };

    fn number(self) -> u32 {
        self as u32
    }
}

impl Width for u16 {
    ghost number = { λ n. n };

    fn number(self) -> u32 {
        self as u32
    }
}

impl Width for u32 {
    ghost number = { λ n. n };

    fn number(self) -> u32 {
        self
    }
}

/// Numbers in one, two or four bytes each.
#[derive(Drop)]
pub(crate) enum Kept {
    One(Vec<u8>),
    Two(Vec<u16>),
    Four(Vec<u32>),
}

/// The same numbers in two bytes each.
fn in_two(alloc: Global, numbers: &[u8]) -> Result<Vec<u16>, AllocError>
    ensures { IfOk result (λ wide. wide.items ≡ numbers.now) }
{
    numbers.iter().map(|number| *number as u16).collect(alloc)
}

/// The same numbers in four bytes each.
fn in_four(alloc: Global, numbers: &[u16]) -> Result<Vec<u32>, AllocError>
    ensures { IfOk result (λ wide. wide.items ≡ numbers.now) }
{
    numbers.iter().map(|number| *number as u32).collect(alloc)
}

impl Kept {
    /// The largest number that fits.
    fn most(&self) -> u32
        ensures { result ≡ most_in self.now }
    {
        match self {
            Kept::One(_) => 255,
            Kept::Two(_) => 65_535,
            Kept::Four(_) => 4_294_967_295,
        }
    }

    /// The same, each in so many bytes that the number fits among them.
    fn widened(&self, alloc: Global, number: u32) -> Result<Kept, AllocError>
        requires { most_in self.now < number }
        ensures same { IfOk result (λ kept. numbers_in kept ≡ numbers_in self.now) }
        ensures fits { IfOk result (λ kept. number ≤ most_in kept) }
    {
        match self {
            Kept::One(numbers) => {
                let two = in_two(alloc, numbers.as_slice())?;
                if number <= 65_535 {
                    return Ok(Kept::Two(two));
                }
                Ok(Kept::Four(in_four(alloc, two.as_slice())?))
            }
            Kept::Two(numbers) => Ok(Kept::Four(in_four(alloc, numbers.as_slice())?)),
            Kept::Four(_) => unreachable!(),
        }
    }

    fn push(&mut self, number: u32) -> Result<(), AllocError>
        requires { number ≤ most_in self.old }
        ensures { OnOk result (numbers_in self.new ≡ numbers_in self.old ++ number ∷ []) }
    {
        match self {
            Kept::One(numbers) => numbers.push(number as u8)?,
            Kept::Two(numbers) => numbers.push(number as u16)?,
            Kept::Four(numbers) => numbers.push(number)?,
        }
        Ok(())
    }
}

/// A growing list of numbers, each in as few bytes as the largest one needs.
// It grows narrow, and is copied where a number doesn't fit: a list that was wide till its end would take most memory then.
#[derive(Drop)]
pub(crate) struct Numbers {
    kept: Kept,
}

impl Model for Numbers {
    ghost use Rattle.std.specs.Prelude.{List, ℕ};
    ghost use Rattle.aa_auto.specs.Numbers.{numbers_in};

    ghost Value = { List ℕ };

    ghost view = { λ n. numbers_in n.kept };
}

impl Numbers {
    pub(crate) fn new(alloc: Global) -> Self
        ensures { result ≡ [] }
    {
        Numbers {
            kept: Kept::One(Vec::new(alloc)),
        }
    }

    pub(crate) fn len(&self) -> usize
        ensures { result ≡ length self.now }
    {
        match &self.kept {
            Kept::One(numbers) => numbers.len(),
            Kept::Two(numbers) => numbers.len(),
            Kept::Four(numbers) => numbers.len(),
        }
    }

    pub(crate) fn get(&self, index: usize) -> u32
        requires { index < length self.now }
        ensures { result ≡ slice_index self.now index }
    {
        match &self.kept {
            Kept::One(numbers) => numbers[index] as u32,
            Kept::Two(numbers) => numbers[index] as u32,
            Kept::Four(numbers) => numbers[index],
        }
    }

    /// For loops that look at many of them.
    pub(crate) fn kept(&self) -> &Kept
        ensures { numbers_in result.now ≡ self.now }
    {
        &self.kept
    }

    /// Adds a number.
    pub(crate) fn push(&mut self, alloc: Global, number: u32) -> Result<(), AllocError>
        ensures { OnOk result (self.new ≡ self.old ++ number ∷ []) }
    {
        if number > self.kept.most() {
            self.kept = self.kept.widened(alloc, number)?;
        }
        self.kept.push(number)
    }

    /// Leaves no room to spare.
    pub(crate) fn shrink_to_fit(&mut self)
        ensures { self.new ≡ self.old }
    {
        match &mut self.kept {
            Kept::One(numbers) => numbers.shrink_to_fit(),
            Kept::Two(numbers) => numbers.shrink_to_fit(),
            Kept::Four(numbers) => numbers.shrink_to_fit(),
        }
    }
}
