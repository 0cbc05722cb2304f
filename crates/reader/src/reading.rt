// How a text is read.
use source::limits::DEEPEST;
use std::marker::PhantomData;

// Reads the values of a text in W. It has no place of its own: where a value ends is what its functions answer.
#[derive_where(Clone, Copy)]
pub(crate) struct Reader<'a, W> {
    pub text: &'a [u8],
    // Whether an object is refused in which a name stands twice.
    pub distinct: bool,
    pub language: PhantomData<W>,
}

// How many levels a value at depth 0 has, its own included.
pub(crate) const LEVELS: usize = DEEPEST + 1;
