//! Places in a round.
ghost use Rattle.std.specs.Prelude.{◌≡◌, ◌<◌};
ghost use Rattle.geometry.specs.Polygons.{after, before};

/// The place after i, in a round of n.
pub(crate) fn following(n: usize, i: usize) -> usize
    requires { i < n }
    ensures { result ≡ after n i }
{
    if i + 1 < n { i + 1 } else { 0 }
}

/// The place before i, in a round of n.
pub(crate) fn preceding(n: usize, i: usize) -> usize
    requires { i < n }
    ensures { result ≡ before n i }
{
    if i == 0 { n - 1 } else { i - 1 }
}
