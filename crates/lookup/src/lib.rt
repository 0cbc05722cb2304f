// Finding a record by its name.
#![tactic(auto)]

ghost use Rattle.std.specs.Prelude.{◌≡◌, ℕ, List, map, length, slice_get};
ghost use Rattle.std.specs.List.{position};
ghost use Rattle.std.specs.Option.{option_copied};
ghost use Rattle.std.specs.Str.{bytes_eq};
ghost use Rattle.lookup.specs.First.{First, Distinct, Only};

pub mod hash;
pub mod index;
#[cfg(test)]
mod tests;

// What has a name.
pub trait Named {
    ghost called: { Self → List ℕ };

    fn name(&self) -> &[u8]
        ensures { result.now ≡ called self.now };
}

// Names in an order, each with its number; by the names of records, these are found.
pub trait Lookup {
    // The names, in their order.
    ghost names: { Self → List (List ℕ) };

    // The number of the name, and where it stands twice, that of its first place.
    fn find(&self, name: &[u8]) -> Option<usize>
        ensures first { First (names self.now) name.now result }
        ensures only { Distinct (names self.now) → Only (names self.now) name.now result };

    // The name that has the number.
    fn name(&self, number: usize) -> Option<&[u8]>
        ensures { option_copied result ≡ slice_get (names self.now) number };

    fn len(&self) -> usize
        ensures { result ≡ length (names self.now) };
}

// Records in a row.
#[derive_where(Clone, Copy)]
pub struct Table<'a, R> {
    records: &'a [R],
}

impl<'a, R> Table<'a, R> {
    pub fn new(records: &'a [R]) -> Table<'a, R>
        ensures { result.records.now ≡ records.now }
    {
        Table { records }
    }
}

// A function of its own, since what `position` finds is not told to a proof of `find` past its closure.
// The index of the first record with the name.
fn first<R: Named>(records: &[R], name: &[u8]) -> Option<usize>
    ensures { result ≡ position (λ r. bytes_eq (R.called r) name.now) records.now }
{
    records.iter().position(|record| record.name() == name)
}

impl<R: Named> Lookup for Table<'_, R> {
    ghost names = { λ t. map R.Named.called t.records.now };

    fn find(&self, name: &[u8]) -> Option<usize> {
        first(self.records, name)
    }

    fn name(&self, number: usize) -> Option<&[u8]> {
        Some(self.records.get(number)?.name())
    }

    fn len(&self) -> usize {
        self.records.len()
    }
}
