// The hash of a name: FNV-1a.
ghost use Rattle.std.specs.Prelude.{◌≡◌};
ghost use Rattle.lookup.specs.Slots.{name_hash};

const OFFSET: u32 = 2166136261;

const PRIME: u32 = 16777619;

#[tactic(auto, unfolding(crate::specs::Slots::name_hash))]
pub(crate) fn hash_of(name: &[u8]) -> usize
    ensures { result ≡ name_hash name.now }
{
    let hash = name.iter().fold(OFFSET, |hash, byte| {
        (hash ^ u32::from(*byte)).wrapping_mul(PRIME)
    });
    hash as usize
}
