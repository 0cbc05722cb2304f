// The index of a link's child, if it has one.
ghost use Rattle.std.specs.Prelude.{◌≡◌};
ghost use Rattle.names.specs.Index.{child_at, index_of};

// An `Option<usize>` in half the bytes: a child comes after its parent, so that no child has the index 0, and 0 is none.
#[derive(Clone, Copy, Debug)]
pub struct ChildIndex {
    index: usize,
}

impl ChildIndex {
    pub const NONE: ChildIndex = ChildIndex { index: 0 };

    // The child at an index; none for 0.
    pub fn at(index: usize) -> ChildIndex
        ensures { result ≡ child_at index }
    {
        ChildIndex { index }
    }

    pub fn index(self) -> Option<usize>
        ensures { result ≡ index_of self }
    {
        (self.index > 0).then_some(self.index)
    }
}
