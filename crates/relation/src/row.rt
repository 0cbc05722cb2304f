// A set of numbers below the most: a bit for each.
ghost use Rattle.std.specs.Prelude.{◌≡◌, ℕ, ◌<◌, false, ◌||◌, ◌==◌};
ghost use Rattle.relation.specs.Bits.{bit};

use crate::MOST;

const WORDS: usize = MOST / 64;

#[derive(Clone, Copy)]
pub struct Row {
    words: [u64; WORDS],
}

impl Row {
    pub fn new() -> Row
        ensures { (j : ℕ) → bit result.words j ≡ false }
    {
        Row { words: [0; WORDS] }
    }

    pub fn contains(&self, number: usize) -> bool
        requires { number < MOST }
        ensures { result ≡ bit self.now.words number }
    {
        self.words[number / 64] >> (number % 64) & 1 == 1
    }

    pub fn insert(&mut self, number: usize)
        requires { number < MOST }
        ensures { (j : ℕ) → bit self.new.words j ≡ (j == number || bit self.old.words j) }
    {
        self.words[number / 64] |= 1 << (number % 64);
    }

    // Inserts all that the other holds.
    pub fn join(&mut self, other: &Row)
        ensures { (j : ℕ) → bit self.new.words j ≡ (bit self.old.words j || bit other.now.words j) }
    {
        for i in 0..WORDS {
            self.words[i] |= other.words[i];
        }
    }
}
