//! Working out a report.
ghost use Rattle.std.specs.Prelude.{◌≡◌, ◌<◌, ◌≤◌, length, MatchResult};
ghost use Rattle.std.specs.List.{AllByRecursion};
ghost use Rattle.network.specs.Costs.{LawfulWeight};
ghost use Rattle.sources.specs.Filling.{Accepted};
ghost use Rattle.sources.specs.Tables.{listed};
ghost use Rattle.corner_report.specs.Planned.{Reckoned};
ghost use Rattle.corner_report.specs.Reports.{Misfits, Reported};

use crate::entries::entries_of;
use crate::lines::lines_of;
use crate::planning::settled;
use network::{Fault, Record, Weight};
use printout::{Heading, Report};
use sources::Table;
use takeoff::{Header, read};

/// The report of a lawful takeoff. Refuses with 24 where a result does not fit.
// This and `report` stand beside those of report, and are not one with them: this full report is told by a settled plan, the short one by a
// run that finds least costs alone.
// What is asked of the weights stands here and at `lines_of`, and in no third contract: a struct that holds it would be
// made in `report` by the same proof, only to be taken apart in `lines_of`.
fn reckon(header: Header, records: &[Record], weights: &[Weight]) -> Result<Report, Fault>
    requires drawn { Accepted header.nodes records.now }
    requires aimed { (header.start < header.nodes) × (header.target < header.nodes) }
    requires weighed { (length weights.now ≤ 16) × (AllByRecursion LawfulWeight weights.now) }
    ensures { MatchResult result (λ x. Reckoned header records.now weights.now x) (λ f. Misfits (listed header.nodes records.now) header.start header.target f) }
{
    let mut table = Table::new();
    table.fill(header.nodes, records)?;
    let plan = settled(table, header.start, header.target)?;
    let (corners, entries) = entries_of(&plan, header.target)?;
    let lines = lines_of(&plan, &header, weights)?;
    // Field by field, as in the other report: neither type is one of this crate's, so that it can have no `From` here.
    let heading = Heading {
        nodes: header.nodes,
        segments: records.len(),
        start: header.start,
        target: header.target,
    };
    Ok(Report {
        heading,
        corners,
        entries,
        weights: weights.len(),
        lines,
    })
}

/// The report of a takeoff file: its heading; for each corner of its target, from its start through its network, the cost,
/// the cone and the route that working back finds; and for each of its weights, in their order, the least weighted cost
/// over all routes and the lowest corner that has it. Refuses with the fault of the takeoff's reader, or else with 24 where
/// a result up to the target does not fit.
pub fn report(bytes: &[u8]) -> Result<Report, Fault>
    ensures reports_the_takeoff { Reported bytes.now result }
{
    // Room for what a takeoff can hold: no call is to fail for want of memory.
    let mut records = [Record::default(); 1024];
    let mut weights = [Weight::default(); 16];
    let header = read(bytes, &mut records, &mut weights)?;
    reckon(
        header,
        &records[..header.segments],
        &weights[..header.weights],
    )
}
