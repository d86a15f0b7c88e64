ghost use Rattle.std.specs.Prelude.{◌≡◌};
ghost use Rattle.prefs_proto.specs.Found.{unfit_place};
ghost use Rattle.prefs_proto.specs.Reads.{least};

/// What may not stand in a file: a text that is not UTF-8, at the place of its first byte, or an entry whose key is too
/// long, at the place of its tag. It ends no reading: a fault of the wire format, wherever it is, is told before it.
#[derive(Clone, Copy, Debug, PartialEq, Eq)]
pub(crate) struct UnfitAt(pub(crate) u64);

/// The lesser of two such places, where there are two.
#[inline]
pub(crate) fn first_of(a: Result<(), UnfitAt>, b: Result<(), UnfitAt>) -> Result<(), UnfitAt>
    ensures { unfit_place result ≡ least (unfit_place a) (unfit_place b) }
{
    match (a, b) {
        (Ok(()), other) => other,
        (Err(at), Ok(())) => Err(at),
        (Err(UnfitAt(place)), Err(UnfitAt(other))) => Err(UnfitAt(place.min(other))),
    }
}
