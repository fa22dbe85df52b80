//! What the table of samples says.
ghost use Rattle.std.specs.List.{AllByRecursion};
ghost use Rattle.samples.specs.Files.{FileOf};
ghost use Rattle.samples.specs.Samples.{Holds};
ghost use Rattle.samples.specs.Table.{file, table, takeoff};

/// Every line of the table of samples holds: the corners of its node, their cones, the number of routes there, and what
/// weights come to. The contract is the theorem; the answer, 0, says nothing.
pub fn samples_hold() -> u8
    ensures { AllByRecursion Holds table }
{
    0
}

/// The file of the first sample says its takeoff, and no other. The contract is the theorem; the answer, 0, says nothing.
pub fn file_says_the_takeoff() -> u8
    ensures { FileOf file takeoff }
{
    0
}
