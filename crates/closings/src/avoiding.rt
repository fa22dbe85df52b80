//! What closings do to routes, said once for all.
ghost use Rattle.std.specs.Prelude.{◌≡◌, ℕ, List, [], ◌++◌};
ghost use Rattle.network.specs.Networks.{Network};
ghost use Rattle.closings.specs.Closings.{closed_nodes, closing_network, without};
ghost use Rattle.closings.specs.ClosedRoutes.{Closes};

use crate::closing::Closing;
use sources::Source;

/// The routes of a closing are exactly the routes below that have no step with a closed end, at the same costs,
/// and the empty route stays. The contract is the theorem; the answer, 0, says nothing.
pub fn routes_avoid_closed_nodes<S: Source>(closing: &Closing<S>) -> u8
    ensures { Closes (closed_nodes closing.now) (S.Source.network closing.now.below) (closing_network S.Source.network closing.now) }
{
    0
}

/// A closing that closes nothing has the network below, and a closing over a closing has the one with the nodes of
/// both closed. The contract is the theorem; the answer, 0, says nothing.
pub fn closings_add_up() -> u8
    ensures none { (N : Network) → without [] N ≡ N }
    ensures both { (vs ws : List ℕ) (N : Network) → without vs (without ws N) ≡ without (ws ++ vs) N }
{
    0
}
