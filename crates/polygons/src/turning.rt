//! Which way and how far points lie from one another.
ghost use Rattle.std.specs.Prelude.{◌≡◌, Decides, pos, ◌+ℤ◌, ◌-ℤ◌, ◌*ℤ◌, ◌<ℤ◌};
ghost use Rattle.geometry.specs.Plane.{orient};
ghost use Rattle.geometry.specs.Sums.{across};
ghost use Rattle.polygons.specs.Points.{place, past};

use network::{Cost, Way, product};

/// The signed area between two ways: above 0 where the second turns left of the first.
fn cross(first: &Way, second: &Way) -> i64
    ensures { result ≡ first.now.dx *ℤ second.now.dy -ℤ first.now.dy *ℤ second.now.dx }
{
    product(first.dx, second.dy) - product(first.dy, second.dx)
}

/// How far the second way leads along the first, times the length of the first.
fn along(first: &Way, second: &Way) -> i64
    ensures { result ≡ first.now.dx *ℤ second.now.dx +ℤ first.now.dy *ℤ second.now.dy }
{
    product(first.dx, second.dx) + product(first.dy, second.dy)
}

// Three points each time, and not a struct of them: its name would say no more than theirs.
/// Above 0 where r is to the left of the way from p to q, 0 where it is in line.
fn turn(p: Cost, q: Cost, r: Cost) -> i64
    ensures { result ≡ orient (place p) (place q) (place r) }
{
    cross(&Way::between(&p, &q), &Way::between(&p, &r))
}

/// Above 0 where s is beyond b on the way from p to b.
fn beyond(p: Cost, b: Cost, s: Cost) -> i64
    ensures { result ≡ past (place p) (place b) (place s) }
{
    along(&Way::between(&p, &b), &Way::between(&b, &s))
}

/// Above 0 where the way from c to d turns left of the way from a to b.
pub(crate) fn crossing(a: Cost, b: Cost, c: Cost, d: Cost) -> i64
    ensures { result ≡ across (place a) (place b) (place c) (place d) }
{
    cross(&Way::between(&a, &b), &Way::between(&c, &d))
}

/// Whether s is to the right of the way from p to b.
pub(crate) fn right_of(p: Cost, b: Cost, s: Cost) -> bool
    ensures { Decides result (orient (place p) (place b) (place s) <ℤ pos 0) }
{
    turn(p, b, s) < 0
}

/// Whether s is in line with the way from p to b.
pub(crate) fn in_line(p: Cost, b: Cost, s: Cost) -> bool
    ensures { Decides result (orient (place p) (place b) (place s) ≡ pos 0) }
{
    turn(p, b, s) == 0
}

/// Whether s is farther than b on the way from p to b.
pub(crate) fn farther(p: Cost, b: Cost, s: Cost) -> bool
    ensures { Decides result (pos 0 <ℤ past (place p) (place b) (place s)) }
{
    beyond(p, b, s) > 0
}
