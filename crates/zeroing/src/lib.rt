// Lent memory set to zero.
#![tactic(auto)]

ghost use Rattle.std.specs.Prelude.{◌≡◌, length, replicate};

// A word that lent memory is made of.
pub trait Word: Copy {
    ghost ZERO: { Self };

    const ZERO: Self;
}

impl Word for u64 {
    ghost ZERO = { 0 };

    const ZERO: u64 = 0;
}

impl Word for u16 {
    ghost ZERO = { 0 };

    const ZERO: u16 = 0;
}

impl Word for u8 {
    ghost ZERO = { 0 };

    const ZERO: u8 = 0;
}

// Writes zero into every word.
pub fn zero<W: Word>(words: &mut [W])
    ensures { words.new ≡ replicate (length words.old) W.ZERO }
{
    for word in words.iter_mut() {
        *word = W::ZERO;
    }
}
