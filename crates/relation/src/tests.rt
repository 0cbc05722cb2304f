// Cycles of one number, of several, and of all.
ghost use Rattle.std.specs.Prelude.{◌≤◌};
ghost use Rattle.relation.specs.declared.TheConstants.{MOST};

use crate::Relation;
use std::alloc::{AllocError, Global};

// The first number that leads to itself, where each pair's first number leads to its second.
fn first_of(
    heap: Global,
    size: usize,
    pairs: &[(usize, usize)],
) -> Result<Option<usize>, AllocError>
    requires { size ≤ MOST }
{
    let mut relation = Relation::new(heap, size)?;
    for (from, to) in pairs {
        if *from < size && *to < size {
            relation.add(*from, *to);
        }
    }
    relation.close();
    Ok(relation.first_to_itself())
}

#[test]
fn none_leads_to_itself(rt: HostRuntime) {
    let heap = rt.alloc();
    assert_eq!(rt; first_of(heap, 0, &[]), Ok(None));
    assert_eq!(rt; first_of(heap, 3, &[]), Ok(None));
    assert_eq!(rt;
        first_of(heap, 4, &[(0, 1), (1, 2), (2, 3), (0, 3)]),
        Ok(None)
    );
    assert_eq!(rt; first_of(heap, 4, &[(3, 2), (2, 1), (1, 0)]), Ok(None));
}

#[test]
fn the_first_on_a_cycle(rt: HostRuntime) {
    let heap = rt.alloc();
    assert_eq!(rt; first_of(heap, 1, &[(0, 0)]), Ok(Some(0)));
    assert_eq!(rt; first_of(heap, 4, &[(0, 2), (2, 3), (3, 2)]), Ok(Some(2)));
    assert_eq!(rt; first_of(heap, 4, &[(3, 1), (1, 2), (2, 3)]), Ok(Some(1)));
    assert_eq!(rt;
        first_of(heap, 130, &[(64, 129), (129, 63), (63, 64), (0, 63)]),
        Ok(Some(63))
    );
}

// One chain of all numbers, and then one cycle of them: the first number on it before and after, and whether 64 leads to 65.
fn chained(heap: Global) -> Result<(Option<usize>, Option<usize>, bool), AllocError> {
    let mut relation = Relation::new(heap, 70)?;
    for number in 1..70 {
        relation.add(number, number - 1);
    }
    relation.close();
    let before = relation.first_to_itself();
    relation.add(0, 69);
    relation.close();
    Ok((before, relation.first_to_itself(), relation.leads(64, 65)))
}

#[test]
fn all_numbers(rt: HostRuntime) {
    let heap = rt.alloc();
    assert_eq!(rt; chained(heap), Ok((None, Some(0), true)));
}
