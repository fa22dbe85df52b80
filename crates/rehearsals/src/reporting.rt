//! The sample that is a takeoff, from its file.
ghost use Rattle.std.specs.Prelude.{◌≡◌, MatchResult};
ghost use Rattle.rehearsals.specs.Reporting.{ReportSays};
ghost use Rattle.samples.specs.Table.{drawn, lines, takeoff};

use corner_report::report;
use network::Fault;
use printout::Report;

/// The takeoff's file: three nodes; the three segments; start and target; one weight.
const FILE: [u8; 55] = [
    0x4E, 0, 1, 3, 0x53, 0, 10, 0, 1, 0, 4, 0, 1, 0, 1, 0, 3, 0x53, 0, 6, 0, 2, 0, 3, 0, 3, 0x53,
    0, 10, 1, 2, 0, 2, 0, 2, 0, 1, 0, 6, 0x50, 0, 2, 0, 2, 0x57, 0, 8, 0, 0, 0, 0, 0, 0, 0, 1,
];

/// The report of the takeoff's file: four corners with their cones and routes, and the least cost at the weight.
pub fn report_drawn() -> Result<Report, Fault>
    ensures { MatchResult result (λ x. ReportSays drawn takeoff lines x) (λ _. ⊥) }
{
    report(&FILE)
}
