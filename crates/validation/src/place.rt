// Places of faults, of which the least is told.
ghost use Rattle.std.specs.Prelude.{◌≡◌};
ghost use Rattle.validation.specs.Places.{lesser_of};

// The lesser of two places, of which either may be none.
pub(crate) fn lesser(one: Option<usize>, other: Option<usize>) -> Option<usize>
    ensures { result ≡ lesser_of one other }
{
    match (one, other) {
        (Some(one), Some(other)) => Some(one.min(other)),
        (None, place) | (place, None) => place,
    }
}
