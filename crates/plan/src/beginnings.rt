//! The beginnings of a list of calls.
ghost use Rattle.plan.specs.Calls.{BeginningsRight};

/// Where a list of calls is answered rightly, so is every beginning of it. The contract is the theorem; the answer, 0, says
/// nothing.
pub fn beginnings_are_right() -> u8
    ensures { BeginningsRight }
{
    0
}
