//! Working out a report.
ghost use Rattle.std.specs.Prelude.{◌≡◌, ◌<◌, ◌≤◌, length, MatchResult};
ghost use Rattle.std.specs.List.{AllByRecursion};
ghost use Rattle.network.specs.Costs.{LawfulWeight};
ghost use Rattle.sources.specs.Filling.{Accepted};
ghost use Rattle.sources.specs.Tables.{listed};
ghost use Rattle.report.specs.Reports.{Reported, Told};

use crate::lines::lines_at;
use crate::summary::Report;
use network::{Fault, Record, Weight};
use printout::Heading;
use sources::Table;
use takeoff::{Header, read};

/// The report of a lawful takeoff.
// This and `report` stand beside those of corner_report, and are not one with them: this short report is told by a run that finds least costs
// alone, the full one by a settled plan.
// What is asked of the weights stands here, and their number at `lines_at`, and in no third contract: a struct that holds
// it would be made in `report` by the same proof, only to be taken apart in `lines_at`.
fn reckon(header: Header, records: &[Record], weights: &[Weight]) -> Result<Report, Fault>
    requires drawn { Accepted header.nodes records.now }
    requires aimed { (header.start < header.nodes) × (header.target < header.nodes) }
    requires weighed { (length weights.now ≤ 16) × (AllByRecursion LawfulWeight weights.now) }
    ensures { MatchResult result (λ x. Told header records.now weights.now x) (λ _. ⊥) }
{
    let mut table = Table::new();
    table.fill(header.nodes, records)?;
    let lines = lines_at(&table, header.start, header.target, weights)?;
    // Field by field, as in the other report: neither type is one of this crate's, so that it can have no `From` here.
    let heading = Heading {
        nodes: header.nodes,
        segments: records.len(),
        start: header.start,
        target: header.target,
    };
    Ok(Report {
        heading,
        count: weights.len(),
        lines,
    })
}

/// The report of a takeoff file: its heading, and for each of its weights, in their order, the least weighted cost over
/// all routes from its start to its target through its network. Refuses with the fault of the takeoff's reader.
pub fn report(bytes: &[u8]) -> Result<Report, Fault>
    ensures reports_the_takeoff { Reported bytes.now result }
{
    // Room for what a takeoff can hold: no call is to fail for want of memory.
    let mut records = [Record::default(); 1024];
    let mut weights = [Weight::default(); 16];
    let header = read(bytes, &mut records, &mut weights)?;
    reckon(
        header,
        &records[..header.segments],
        &weights[..header.weights],
    )
}
