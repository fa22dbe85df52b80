//! Samples that are grids.
ghost use Rattle.std.specs.Prelude.{MatchResult};
ghost use Rattle.samples.specs.Table.{closed, square};
ghost use Rattle.rehearsals.specs.Telling.{Says};

use crate::answer::Told;
use crate::telling::told;
use closings::Closing;
use network::Fault;
use trials::small_grid;

/// What is told of the last cell of the small grid, where cell 1 costs five more.
pub fn tell_square() -> Result<Told, Fault>
    ensures { MatchResult result (λ t. Says square t) (λ _. ⊥) }
{
    told(small_grid(), 3)
}

/// What is told of the last cell of that grid, where cell 1 is closed.
pub fn tell_closed() -> Result<Told, Fault>
    ensures { MatchResult result (λ t. Says closed t) (λ _. ⊥) }
{
    let mut closing = Closing::over(small_grid());
    closing.close(1)?;
    told(closing, 3)
}
