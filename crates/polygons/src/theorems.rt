//! What polygons mean.
ghost use Rattle.std.specs.Prelude.{◌≡◌};
ghost use Rattle.polygons.specs.declared.polygon.Polygon.{Polygon};
ghost use Rattle.polygons.specs.Corners.{corner_list};
ghost use Rattle.polygons.specs.Fits.{costs};

/// A polygon is what it means: two polygons with the same least cost at every weight have the same list of corners.
pub fn meaning_fixes_corners() -> u8
    ensures { (p q : Polygon) → costs p ≡ costs q → corner_list p ≡ corner_list q }
{
    0
}
