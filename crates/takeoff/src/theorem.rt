//! What holds of all takeoff files.
ghost use Rattle.std.specs.Prelude.{◌≡◌};
ghost use Rattle.takeoff.specs.Takeoff.{Contents, Lawful, encode};

/// Two lawful takeoffs, or beginnings of them, never share a file. The answer, 0, says nothing; the contract
/// is the theorem.
#[tactic(auto, using(crate::proofs::Unique::one_file))]
pub fn one_file_one_takeoff() -> u8
    ensures { (one other : Contents) → Lawful one → Lawful other → encode one ≡ encode other → one ≡ other }
{
    0
}
