// Parts of a text, and of a pool of bytes beside it.
ghost use Rattle.std.specs.Prelude.{◌≡◌, ◌-◌, [], length};
ghost use Rattle.names.specs.Parts.{PartFits, bytes_of, start_of, end_of};

// What parts are cut from.
#[derive(Clone, Copy)]
pub struct Holder<'s> {
    pub text: &'s [u8],
    pub pool: &'s [u8],
}

// The bytes of the text or of the pool from `start` on, before `end`.
#[derive(Clone, Copy, Debug)]
pub enum Part {
    Text { start: usize, end: usize },
    Pool { start: usize, end: usize },
}

impl Part {
    pub fn start(self) -> usize
        ensures { result ≡ start_of self }
    {
        match self {
            Part::Text { start, .. } | Part::Pool { start, .. } => start,
        }
    }

    pub fn len(self) -> usize
        ensures { result ≡ end_of self - start_of self }
    {
        match self {
            Part::Text { start, end } | Part::Pool { start, end } => end.saturating_sub(start),
        }
    }

    // The bytes of the part; none where it does not stand.
    pub fn bytes(self, holder: Holder<'_>) -> &[u8]
        ensures stands { PartFits holder.entry.text.now holder.entry.pool.now self → result.now ≡ bytes_of holder.entry.text.now holder.entry.pool.now self }
        ensures none { (PartFits holder.entry.text.now holder.entry.pool.now self → ⊥) → result.now ≡ [] }
    {
        match self {
            Part::Text { start, end } => holder.text.get(start..end).unwrap_or_default(),
            Part::Pool { start, end } => holder.pool.get(start..end).unwrap_or_default(),
        }
    }
}
