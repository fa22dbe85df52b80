//! Polygons tried out: hulls, sums, cones, and the corner lists of whole networks.
#![tactic(auto)]

use corners::corner_lists;
use kinds::Kind;
use network::{Choice, Record, Size};
use polygons::{Hulls, Polygon};
use runs::Sheet;
use sources::{Source, Table};

/// A price and a pressure.
pub(crate) type Pair = (i32, i32);

/// The point of a pair; none where it is out of range.
pub(crate) fn point(pair: Pair) -> Option<Polygon> {
    let (price, pressure) = pair;
    let choice = Choice::try_from(Size { price, pressure }).ok()?;
    Some(Hulls.letter(choice))
}

/// The hull of the points; none where it does not fit.
pub(crate) fn around(pairs: &[Pair]) -> Option<Polygon> {
    let mut all = Hulls.zero();
    for pair in pairs {
        all = Hulls.join(&all, &point(*pair)?)?;
    }
    Some(all)
}

/// Whether there is a polygon and these are its corners, in this order.
pub(crate) fn lists(polygon: Option<Polygon>, pairs: &[Pair]) -> bool {
    polygon.is_some_and(|polygon| {
        let corners = polygon.corners();
        corners.len() == pairs.len()
            && corners
                .iter()
                .zip(pairs)
                .all(|(cost, pair)| (cost.price, cost.pressure) == *pair)
    })
}

/// The parts of a corner's two rays; none where there is no polygon or no such corner.
pub(crate) fn rays(polygon: Option<Polygon>, k: usize) -> Option<[i32; 4]> {
    let (arriving, leaving) = polygon?.cone(k)?;
    Some([arriving.a, arriving.b, leaving.a, leaving.b])
}

/// The corner list of a node, as a run from node 0 leaves it, whether or not the run is refused.
// The sheet is made and read here: no library answers one node of a run that is refused.
pub(crate) fn corners_at<S: Source>(source: &S, v: usize) -> Option<Polygon> {
    // As many cells as a network can have nodes: no call is to fail for want of memory.
    let mut cells = [Polygon::default(); 128];
    let mut sheet = Sheet::over(&mut cells);
    let _ = corner_lists(source, 0, &mut sheet);
    sheet.read(v).copied()
}

/// The table of segments e to e + 1, each with the choices (0, 0) and (1, e + 1).
pub(crate) fn ladder() -> Table {
    let mut records = [Record::default(); 17];
    for (e, record) in (0u8..17).zip(&mut records) {
        let mut sizes = [Size::default(); 8];
        sizes[1] = Size {
            price: 1,
            pressure: i32::from(e) + 1,
        };
        let tail = usize::from(e);
        *record = Record {
            tail,
            head: tail + 1,
            count: 2,
            sizes,
        };
    }
    let mut table = Table::new();
    let _ = table.fill(18, &records);
    table
}

#[cfg(test)]
mod tests {
    use super::*;
    use closings::Closing;
    use network::{Fault, Stage, Weight};
    use std::test::Fail;
    use trials::small_grid;

    #[test]
    fn hulls_and_sums(rt: HostRuntime) -> Result<(), Fail> {
        let square = around(&[(1, 1), (0, 0), (0, 1), (1, 0)]);
        assert!(rt; lists(square, &[(0, 0), (1, 0), (1, 1), (0, 1)]));
        let slant = around(&[(1, 1), (0, 0)]);
        let (Some(one), Some(other)) = (square, slant) else {
            return Err(Fail::new("both fit"));
        };
        let sum = Hulls.chain(&one, &other);
        assert!(rt; lists(sum, &[(0, 0), (1, 0), (2, 1), (2, 2), (1, 2), (0, 1)]));
        let line = around(&[(2, 2), (1, 1), (3, 3)]);
        assert!(rt; lists(line, &[(1, 1), (3, 3)]));
        assert!(rt; rays(line, 0) == Some([2, -2, -2, 2]));
        assert!(rt; lists(around(&[(7, 7), (7, 7), (7, 7)]), &[(7, 7)]));
        assert!(rt; rays(point((7, 7)), 0) == Some([0, 0, 0, 0]));
        assert!(rt; lists(around(&[(3, 1), (1, 1), (2, 1)]), &[(1, 1), (3, 1)]));
        assert!(rt; lists(around(&[(1, 2), (1, 3), (1, 1)]), &[(1, 1), (1, 3)]));
        assert!(rt;
            lists(
                around(&[(0, 10), (20, 20), (6, 5), (10, 0)]),
                &[(0, 10), (10, 0), (20, 20)]
            )
        );
        Ok(())
    }

    #[test]
    fn questions(rt: HostRuntime) -> Result<(), Fail> {
        let Some(triangle) = around(&[(0, 10), (10, 0), (20, 20)]) else {
            return Err(Fail::new("three points fit"));
        };
        assert!(rt; triangle.corner(3).is_none());
        assert!(rt; triangle.cone(3).is_none());
        let none = Polygon::default();
        assert!(rt; none.count() == 0);
        assert!(rt; none.corner(0).is_none());
        assert!(rt; none.cone(0).is_none());
        assert!(rt; none.cheapest(&Weight { a: 1, b: 1 }).is_none());
        let Some(level) = triangle.cheapest(&Weight { a: 1, b: 1 }) else {
            return Err(Fail::new("there is a cheapest"));
        };
        assert!(rt; level.least == 10 && level.corner == 0);
        let Some(dear) = triangle.cheapest(&Weight { a: -1, b: -1 }) else {
            return Err(Fail::new("there is a cheapest"));
        };
        assert!(rt; dear.least == -40 && dear.corner == 2);
        Ok(())
    }

    #[test]
    fn whole_networks(rt: HostRuntime) -> Result<(), Fail> {
        let grid = small_grid();
        assert!(rt; lists(corners_at(&grid, 3), &[(2, 8), (6, 2), (11, 2), (7, 8)]));
        let mut closing = Closing::over(grid);
        assert!(rt; closing.close(1).is_ok());
        assert!(rt; lists(corners_at(&closing, 3), &[(2, 8), (6, 2)]));
        assert!(rt; lists(corners_at(&closing, 0), &[(0, 0)]));
        assert!(rt; lists(corners_at(&closing, 1), &[]));
        let ladder = ladder();
        assert!(rt; corners_at(&ladder, 16).map(|list| list.count()) == Some(32));
        assert!(rt; corners_at(&ladder, 17).map(|list| list.count()) == Some(0));
        let mut cells = [Polygon::default(); 18];
        let mut sheet = Sheet::over(&mut cells);
        let outcome = corner_lists(&ladder, 0, &mut sheet);
        assert!(rt; outcome == Err(Fault::Misfit(17, 16, Stage::Chain)));
        let mut cut = Closing::over(ladder);
        assert!(rt; cut.close(5).is_ok());
        assert!(rt; corners_at(&cut, 4).map(|list| list.count()) == Some(8));
        assert!(rt; lists(corners_at(&cut, 16), &[]));
        Ok(())
    }
}
