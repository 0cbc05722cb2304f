// An index over any lookup: a hash table of the numbers of its first names.
ghost use Rattle.std.specs.Prelude.{◌≡◌, ℕ, ◌/◌, ◌<◌, ◌↔◌, min, [], length, slice_get, slice_index_or, IsTrue};
ghost use Rattle.lookup.specs.Slots.{Sound, Reached, ProbeTold};

use crate::{Lookup, hash};

// The lookup, and at each slot the number of a name. A name is searched for from the slot of its hash on, and the
// search ends where it meets the name or an empty slot. What it does not meet, the lookup is asked for.
// Half of the slots are for numbers, so that a search soon meets an empty one.
#[derive(Drop)]
pub struct Hashed<L: Lookup, const SLOTS: usize> {
    inner: L,
    slots: [Option<u16>; SLOTS],
    ghost sound: { Sound (L.names inner) slots },
}

// The index: it holds the numbers of the first 256 names.
pub type Index<L> = Hashed<L, 512>;

// How a search ends.
#[derive(Clone, Copy)]
pub(crate) enum Probe {
    Held(u16),
    Vacant(usize),
    Full,
}

// Whether the name has the number.
fn has<L: Lookup>(inner: &L, number: u16, name: &[u8]) -> bool
    ensures { IsTrue result ↔ (slice_get (L.names inner.now) number ≡ Some name.now) }
{
    inner
        .name(usize::from(number))
        .is_some_and(|held| held == name)
}

// Searches for a name.
fn search<L: Lookup, const SLOTS: usize>(
    inner: &L,
    slots: &[Option<u16>; SLOTS],
    name: &[u8],
) -> Probe
    requires { Sound (L.names inner.now) slots.now }
    ensures { ProbeTold SLOTS (L.names inner.now) slots.now name.now result }
{
    let hash = hash::hash_of(name);
    for step in 0..SLOTS {
        let slot = hash.wrapping_add(step) % SLOTS;
        match slots[slot] {
            None => return Probe::Vacant(slot),
            Some(number) if has(inner, number, name) => return Probe::Held(number),
            Some(_) => {}
        }
    }
    Probe::Full
}

// The slots of the first names.
fn numbered<L: Lookup, const SLOTS: usize>(inner: &L) -> [Option<u16>; SLOTS]
    ensures sound { Sound (L.names inner.now) result }
    ensures held { (k : ℕ) → k < min (SLOTS / 2) 65535 → k < length (L.names inner.now) → Reached SLOTS (L.names inner.now) result (slice_index_or (L.names inner.now) k []) }
{
    let mut slots = [None; SLOTS];
    for number in 0..(SLOTS / 2).min(usize::from(u16::MAX)) {
        let Some(name) = inner.name(number) else {
            break;
        };
        if let Probe::Vacant(slot) = search(inner, &slots, name) {
            slots[slot] = Some(number as u16);
        }
    }
    slots
}

impl<L: Lookup, const SLOTS: usize> Hashed<L, SLOTS> {
    pub fn new(inner: L) -> Hashed<L, SLOTS>
        ensures { result.inner ≡ inner }
    {
        let slots = numbered(&inner);
        Hashed { inner, slots }
    }
}

impl<L: Lookup, const SLOTS: usize> Lookup for Hashed<L, SLOTS> {
    ghost names = { λ x. L.names x.inner };

    fn find(&self, name: &[u8]) -> Option<usize> {
        match search(&self.inner, &self.slots, name) {
            Probe::Held(number) => Some(usize::from(number)),
            Probe::Vacant(_) | Probe::Full => self.inner.find(name),
        }
    }

    fn name(&self, number: usize) -> Option<&[u8]> {
        self.inner.name(number)
    }

    fn len(&self) -> usize {
        self.inner.len()
    }
}
