//! Convex lattice polygons: definitions, proofs and what they show.
#![tactic(auto)]

ghost use Rattle.geometry.specs.Theorems.{Faithful, HullExists, HullConvex, HullCorners, HullCovers, HullSupport};
ghost use Rattle.geometry.specs.Theorems.{InsideEdges, EdgesInside, UnionSupport, SumSupport, SemiringOfCosts};
ghost use Rattle.geometry.specs.Theorems.{ConeCheapest, CheapestCone, CornerExposed, ExposingNear, ExposingInRange};
ghost use Rattle.geometry.specs.Theorems.{CornerAlone, AloneCorner, CornerOnce, ExposedCorner, TooMany, TooFar};
ghost use Rattle.geometry.specs.Theorems.{JoinCorners, JoinCovers, ChainCorners, ChainCovers};
ghost use Rattle.geometry.specs.Theorems.{LeastTakes, LeastKeeps, NextTakes, NextKeeps};
ghost use Rattle.geometry.specs.Theorems.{WalkBegins, WalkExposed, WalkGoes, WalkFalls, WalkCloses};
ghost use Rattle.geometry.specs.Theorems.{SumBegins, SumSteps, SumGoes, SumFalls, SumCloses};

/// A polygon is what it means: two corner lists with the same least cost at every weight are equal, and every list of
/// points has such a polygon.
pub fn support_is_faithful() -> u8
    ensures faithful { Faithful }
    ensures exists { HullExists }
{
    0
}

/// A walk round some points gives their hull: a polygon whose corners are points, in which all points lie, and
/// whose least cost at every weight is that of the points.
pub fn walks_give_hulls() -> u8
    ensures convex { HullConvex }
    ensures corners_are_points { HullCorners }
    ensures points_lie_inside { HullCovers }
    ensures support { HullSupport }
{
    0
}

/// A point lies in a polygon exactly when it is to the right of no edge; with two corners it lies between them,
/// with one it is the corner.
pub fn inside_is_left_of_edges() -> u8
    ensures to_edges { InsideEdges }
    ensures from_edges { EdgesInside }
{
    0
}

/// The union of two lists has the lesser of their supports, the list of all sums has their sum.
pub fn supports_of_unions_and_sums() -> u8
    ensures union { UnionSupport }
    ensures sum { SumSupport }
{
    0
}

/// Costs at every weight form a semiring, with the lesser as join and the sum as chain.
pub fn costs_form_a_semiring() -> u8
    ensures laws { SemiringOfCosts }
{
    0
}

/// A weight lies between the two rays of a corner exactly when the corner is as cheap as any at it.
pub fn cones_hold_cheapest_weights() -> u8
    ensures from_cone { ConeCheapest }
    ensures to_cone { CheapestCone }
{
    0
}

/// Each corner has a weight at which it is cheaper than any other point of the figure, and this weight is in range.
pub fn corners_are_exposed() -> u8
    ensures cheaper { CornerExposed }
    ensures near { ExposingNear }
    ensures in_range { ExposingInRange }
{
    0
}

/// The corners of the polygon of some points are exactly the points that are alone cheapest at some weight in range,
/// each once.
pub fn corners_are_alone_cheapest() -> u8
    ensures only_these { CornerAlone }
    ensures all_these { AloneCorner }
    ensures once { CornerOnce }
{
    0
}

/// What a walk has found stands in every polygon with the support of the points: too many corners, or one too far
/// out, show that no polygon fits.
pub fn what_does_not_fit() -> u8
    ensures exposed_points_stand { ExposedCorner }
    ensures too_many { TooMany }
    ensures too_far { TooFar }
{
    0
}

/// The corners of a join come from the parts, and all corners of the parts lie in it.
pub fn joins_by_corners() -> u8
    ensures corners_from_parts { JoinCorners }
    ensures parts_lie_inside { JoinCovers }
{
    0
}

/// Each corner of a chain is the sum of exactly one pair of corners of the parts, and all such sums lie in it.
pub fn chains_by_corners() -> u8
    ensures corners_from_pairs { ChainCorners }
    ensures sums_lie_inside { ChainCovers }
{
    0
}

/// One pass over the points finds the least of them, and one the next corner after an exposed point.
pub fn searches_point_by_point() -> u8
    ensures less_takes_the_place { LeastTakes }
    ensures least_keeps_its_place { LeastKeeps }
    ensures next_takes_the_place { NextTakes }
    ensures next_keeps_its_place { NextKeeps }
{
    0
}

/// A walk round some points begins at the least, goes on to the next corner found or closes there, and comes to an end.
pub fn walks_step_by_step() -> u8
    ensures begins { WalkBegins }
    ensures stands_exposed { WalkExposed }
    ensures goes_on { WalkGoes }
    ensures falls { WalkFalls }
    ensures closes { WalkCloses }
{
    0
}

/// A walk round the sums of two polygons finds its next corner from the edges that leave the two corners at hand.
pub fn sums_step_by_step() -> u8
    ensures begins { SumBegins }
    ensures steps { SumSteps }
    ensures goes_on { SumGoes }
    ensures falls { SumFalls }
    ensures closes { SumCloses }
{
    0
}
