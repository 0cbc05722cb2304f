// Tables and indexes of 0, 1, 256, 257 and 1,024 names.
use crate::index::Index;
use crate::{Lookup, Named, Table};

// A name of two letters.
#[derive(Clone, Copy)]
struct Pair([u8; 2]);

impl Named for Pair {
    ghost called = { λ p. p.0 };

    fn name(&self) -> &[u8] {
        &self.0
    }
}

// The name of a number below 1,024.
fn name_of(number: usize) -> Pair {
    Pair([b'A' + (number / 32 % 32) as u8, b'A' + (number % 32) as u8])
}

// How many of the numbers below `count` a lookup gives for their names, and names for the numbers.
fn found<L: Lookup>(lookup: &L, count: usize) -> usize {
    let mut found = 0;
    for number in 0..count {
        let name = name_of(number);
        let named = lookup.name(number).is_some_and(|held| held == name.name());
        if lookup.find(name.name()) == Some(number) && named && found < usize::MAX {
            found += 1;
        }
    }
    found
}

#[test]
fn all_are_found(rt: HostRuntime) {
    let names: [Pair; 1024] = std::array::from_fn(|number| name_of(number));
    for records in [
        &names[..0],
        &names[..1],
        &names[..256],
        &names[..257],
        &names[..],
    ] {
        let count = records.len();
        let table = Table::new(records);
        let index = Index::new(table);
        assert_eq!(rt; found(&table, count), count);
        assert_eq!(rt; found(&index, count), count);
        assert_eq!(rt; index.len(), count);
        assert!(rt; index.name(count).is_none());
        assert!(rt; index.find(b"none").is_none());
        assert!(rt; index.find(b"").is_none());
    }
}

#[test]
fn the_first_of_two(rt: HostRuntime) {
    let names = [Pair(*b"ab"), Pair(*b"cd"), Pair(*b"ab")];
    let table = Table::new(&names);
    assert_eq!(rt; table.find(b"ab"), Some(0));
    let index = Index::new(table);
    assert_eq!(rt; index.find(b"ab"), Some(0));
}
