// The names of the members of objects, as digital search trees.
ghost use Rattle.std.specs.Prelude.{◌≡◌, ◌<◌, [], length, take};
ghost use Rattle.names.specs.Bits.{name_hash, bit_of};
ghost use Rattle.names.specs.Index.{child_of, linked, AddTold, LeafTold};

use crate::child::ChildIndex;
use crate::part::{Holder, Part};
use std::alloc::{AllocError, Global};

// The bits of a hash.
const HASH_BITS: usize = 32;

// FNV-1a's, at 32 bits.
const FNV_OFFSET: u32 = 2166136261;

const FNV_PRIME: u32 = 16777619;

// A name, and the links at which the search goes on, on either side.
// Links are told by their index: no name costs an allocation.
// Two fields and not an array, since a side is one bit of a hash, and so a `bool`.
#[derive(Clone, Copy, Debug)]
pub struct Link {
    pub name: Part,
    pub hash: u32,
    pub low: ChildIndex,
    pub high: ChildIndex,
}

// The names of the members of the objects that are open, the innermost object's last.
#[derive(Drop)]
pub struct Names {
    pub links: Vec<Link>,
}

// FNV-1a, its high half mixed into its low half.
#[tactic(auto, unfolding(crate::specs::Bits::name_hash))]
fn hash_of(bytes: &[u8]) -> u32
    ensures { result ≡ name_hash bytes.now }
{
    let hash = bytes.iter().fold(FNV_OFFSET, |hash, byte| {
        (hash ^ u32::from(*byte)).wrapping_mul(FNV_PRIME)
    });
    hash ^ (hash >> 16)
}

// The side on which a name goes on at a level: by the bits of its hash, then by those of its bytes.
#[tactic(auto, unfolding(crate::specs::Bits::bit_of))]
fn bit(hash: u32, name: &[u8], level: usize) -> bool
    ensures { result ≡ bit_of hash name.now level }
{
    if level < HASH_BITS {
        return (hash >> level) % 2 == 1;
    }
    let place = level - HASH_BITS;
    let byte = name.get(place / 8).copied().unwrap_or(0);
    (byte >> (place % 8)) % 2 == 1
}

impl Link {
    // Where the search goes on, on the high or the low side.
    fn child(&self, high: bool) -> Option<usize>
        ensures { result ≡ child_of self.now high }
    {
        let child = if high { self.high } else { self.low };
        child.index()
    }

    // The link with another child.
    fn with_child(self, high: bool, child: usize) -> Link
        ensures { result ≡ linked self high child }
    {
        let child = ChildIndex::at(child);
        if high {
            Link {
                high: child,
                ..self
            }
        } else {
            Link { low: child, ..self }
        }
    }
}

impl Names {
    pub fn new(heap: Global) -> Names
        ensures { result.links.items ≡ [] }
    {
        Names {
            links: Vec::new(heap),
        }
    }

    pub fn len(&self) -> usize
        ensures { result ≡ length self.now.links.items }
    {
        self.links.len()
    }

    // The link below which a name is to come, and on which side; none where the name is among those from `base` on.
    fn leaf(&self, base: usize, holder: Holder<'_>, name: &[u8], hash: u32) -> Option<(usize, bool)>
        requires { base < length self.now.links.items }
        ensures { LeafTold holder.entry.text.now holder.entry.pool.now self.now.links.items base hash name.now result }
    {
        let mut at = base;
        let mut level = 0;
        loop {
            let link = &self.links[at];
            if link.hash == hash && link.name.bytes(holder) == name {
                return None;
            }
            let high = bit(hash, name, level);
            // A closed object's links are cut off, but links to them stay: a child that is not between this link and the end is none.
            match link.child(high) {
                Some(next) if next > at && next < self.links.len() => at = next,
                _ => return Some((at, high)),
            }
            level += 1;
        }
    }

    // Adds a name to those from `base` on; false where it is among them, and then nothing is added.
    pub fn add(&mut self, base: usize, holder: Holder<'_>, name: Part) -> Result<bool, AllocError>
        ensures { AddTold holder.entry.text.now holder.entry.pool.now base self.old.links.items self.new.links.items name result }
    {
        let bytes = name.bytes(holder);
        let hash = hash_of(bytes);
        let end = self.links.len();
        let link = Link {
            name,
            hash,
            low: ChildIndex::NONE,
            high: ChildIndex::NONE,
        };
        if base >= end {
            self.links.push(link)?;
            return Ok(true);
        }
        let Some((at, high)) = self.leaf(base, holder, bytes, hash) else {
            return Ok(false);
        };
        self.links.push(link)?;
        self.links[at] = self.links[at].with_child(high, end);
        Ok(true)
    }

    // Leaves only the names before `base`.
    pub fn close(&mut self, base: usize)
        ensures { self.new.links.items ≡ take base self.old.links.items }
    {
        self.links.truncate(base);
    }
}
