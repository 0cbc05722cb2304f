// Names that stand twice in a table.
ghost use Rattle.std.specs.Prelude.{◌≡◌, ◌↔◌, ℕ, map, Some, IsTrue};
ghost use Rattle.validation.specs.Places.{labelled};
ghost use Rattle.validation.specs.Making.{FirstFault, Twice};

use crate::place;
use lookup::index::{Hashed, Index};
use lookup::{Lookup, Named, Table};
use schema::definition::{Directive, Field, TypeDef};
use schema::operation::Variable;
use schema::tokens::Name;

// So many names are looked through one after the other.
const FEW: usize = 12;

// More are found by their hashes.
const SOME: usize = 256;

const SLOTS: usize = 2048;

// What has a name at a place.
pub trait Placed: Named {
    ghost at: { Self → ℕ };

    fn place(&self) -> usize
        ensures { result ≡ at self.now };
}

impl Placed for Name<'_> {
    ghost at = { λ n. n.place };

    fn place(&self) -> usize {
        self.place
    }
}

impl Placed for TypeDef<'_> {
    ghost at = { λ t. t.place };

    fn place(&self) -> usize {
        self.place
    }
}

impl Placed for Field<'_> {
    ghost at = { λ f. f.place };

    fn place(&self) -> usize {
        self.place
    }
}

impl Placed for Directive<'_> {
    ghost at = { λ d. d.place };

    fn place(&self) -> usize {
        self.place
    }
}

impl Placed for Variable<'_> {
    ghost at = { λ v. v.name_place };

    fn place(&self) -> usize {
        self.name_place
    }
}

// The first name that an earlier record has.
pub fn twice<R: Placed>(records: &[R]) -> Option<usize>
    ensures { FirstFault (Twice (map (λ r. labelled (R.called r) (R.at r)) records.now)) result }
{
    let table = Table::new(records);
    match records.len() {
        0..=FEW => twice_by(records, &table),
        0..=SOME => twice_by(records, &Index::new(table)),
        _ => twice_by(records, &Hashed::<Table<'_, R>, SLOTS>::new(table)),
    }
}

// The same, where the lookup has the records' names.
fn twice_by<R: Placed, L: Lookup>(records: &[R], names: &L) -> Option<usize>
    requires { L.names names.now ≡ map R.called records.now }
    ensures { FirstFault (Twice (map (λ r. labelled (R.called r) (R.at r)) records.now)) result }
{
    let mut first = None;
    for (number, record) in records.iter().enumerate() {
        if !is_at(names.find(record.name()), number) {
            first = place::lesser(first, Some(record.place()));
        }
    }
    first
}

fn is_at(found: Option<usize>, number: usize) -> bool
    ensures { IsTrue result ↔ (found ≡ Some number) }
{
    found == Some(number)
}
