//! The line of a route.
ghost use Rattle.std.specs.Prelude.{◌≡◌, ◌≤◌, length};

use crate::each::write_each;
use network::Step;
use std::fmt;
use std::fmt::{Display, Formatter};

/// A route to a corner of the target: the number of the corner, and the steps in order from the start, which are the first
/// `count` of `steps`. The default has no steps.
#[derive(Clone, Copy, Debug, PartialEq, Eq)]
pub struct RouteLine {
    pub number: usize,
    // As many places as a route can have steps, and not a list that grows: no call is to fail for want of memory.
    pub count: usize,
    pub steps: [Step; 128],
    ghost few: { count ≤ 128 },
    ghost room: { length steps ≡ 128 },
}

// By hand: the language derives no `Default` for a struct with ghost fields.
impl Default for RouteLine {
    ghost use Rattle.std.specs.Prelude.{◌≡◌};

    ghost is_default = { λ l. (l.number ≡ 0) × (l.count ≡ 0) };

    /// The route to corner 0 that has no steps.
    fn default() -> RouteLine {
        RouteLine {
            number: 0,
            count: 0,
            steps: [Step::default(); 128],
        }
    }
}

impl RouteLine {
    ghost use Rattle.std.specs.Prelude.{◌≡◌};
    ghost use Rattle.printout.specs.Routes.{route_of};

    /// The steps of the route, in order from the start.
    pub fn route(&self) -> &[Step]
        ensures { result.now ≡ route_of self.now }
    {
        &self.steps[0..self.count]
    }
}

impl Display for RouteLine {
    ghost use Rattle.std.specs.Prelude.{Some};
    ghost use Rattle.printout.specs.Texts.{route_text};

    ghost output = { λ l. Some (route_text l) };

    /// The number of the corner, and each step as segment and choice with a point between them.
    fn fmt<W: fmt::Write>(&self, f: &mut Formatter<W>) -> fmt::Result {
        let number = self.number;
        write!(f, "route {number}")?;
        write_each(" ", self.route(), "", f)
    }
}
