//! A network that is listed record by record.
ghost use Rattle.std.specs.Prelude.{◌≡◌, ℕ, ◌≤◌, length, MatchResult};
ghost use Rattle.network.specs.declared.fault.Place.TheVariants.{At};
ghost use Rattle.network.specs.Faults.{number, place};
ghost use Rattle.sources.specs.Listed.{AllRise, AllCounted, AllRanged, AllApart};
ghost use Rattle.sources.specs.Filling.{Accepted, Rejected};

use crate::front::overwrite_front;
use crate::source::Source;
use network::{Fault, Record, Segment};

/// A table: so many nodes, and up to 1,024 records. Record `e` is segment `e`; what stands behind the
/// first `count` records is not used.
#[derive(Clone, Copy, Debug)]
pub struct Table {
    pub(crate) nodes: usize,
    // 1,024 places and how many are used, and not a list that grows: no call is to fail for want of memory. Nor an
    // `ArrayVec`, which cannot be copied.
    pub(crate) count: usize,
    pub(crate) records: [Record; 1024],
    ghost some: { 1 ≤ nodes },
    ghost few: { nodes ≤ 128 },
    ghost short: { count ≤ 1024 },
    ghost room: { length records ≡ 1024 },
    ghost rise: { AllRise nodes count records },
    ghost counted: { AllCounted count records },
    ghost ranged: { AllRanged count records },
    ghost apart: { AllApart count records },
}

/// Looks for the first thing wrong with so many nodes and these records: first the node count, then the number
/// of records, then the first fault of the first record that may not stand in the network.
fn check(nodes: usize, records: &[Record]) -> Result<(), Fault>
    ensures { MatchResult result (λ _. Accepted nodes records.now) (λ f. (p : ℕ) × (place f ≡ At p) × Rejected nodes records.now (number f) p) }
{
    if !(1..=128).contains(&nodes) {
        return Err(Fault::BadNode(0));
    }
    if records.len() > 1024 {
        return Err(Fault::TooMany(0));
    }
    for (e, record) in records.iter().enumerate() {
        record.check(nodes, e)?;
    }
    Ok(())
}

// By hand: the language derives no `Default` for a struct with ghost fields.
impl Default for Table {
    ghost use Rattle.std.specs.Prelude.{◌≡◌, []};
    ghost use Rattle.sources.specs.Tables.{listed, table_network};

    ghost is_default = { λ t. table_network t ≡ listed 1 [] };

    /// A table of one node and no records.
    fn default() -> Table {
        Table {
            nodes: 1,
            count: 0,
            records: [Record::default(); 1024],
        }
    }
}

impl Table {
    ghost use Rattle.std.specs.Prelude.{◌≡◌, [], MatchResult};
    ghost use Rattle.sources.specs.Answers.{Answered};
    ghost use Rattle.sources.specs.Filling.{Accepted, Rejected};
    ghost use Rattle.sources.specs.Tables.{entries as entries_of, listed, table_network};

    /// A table of one node and no records.
    pub fn new() -> Table
        ensures { table_network result ≡ listed 1 [] }
    {
        Table::default()
    }

    /// Makes the table one of so many nodes and these records. Refuses with 5 where the node count is not
    /// 1..128, with 11 where there are more than 1,024 records, and then with the first fault of the first
    /// record that may not stand in the network: 5, 6, 7 or 12, with the record's number as its place. The
    /// table is then as it was.
    #[tactic(auto, using(crate::proofs::Judging::answered_records))]
    pub fn fill(&mut self, nodes: usize, records: &[Record]) -> Result<(), Fault>
        ensures answers { Answered (Accepted nodes records.now) (Rejected nodes records.now) result }
        ensures holds { MatchResult result (λ _. table_network self.new ≡ listed nodes records.now) (λ _. self.new ≡ self.old) }
    {
        check(nodes, records)?;
        overwrite_front(&mut self.records, records);
        self.nodes = nodes;
        self.count = records.len();
        Ok(())
    }

    /// The records that the table has.
    fn entries(&self) -> &[Record]
        ensures { result.now ≡ entries_of self.now }
    {
        &self.records[..self.count]
    }
}

impl Source for Table {
    ghost use Rattle.sources.specs.Tables.{table_network};
    ghost use Rattle.sources.specs.Rules.{table_ruled};

    ghost network = { table_network };

    ghost ruled = { table_ruled };

    fn nodes(&self) -> usize {
        self.nodes
    }

    fn segments(&self) -> usize {
        self.entries().len()
    }

    fn segment(&self, e: usize) -> Option<Segment> {
        let record = self.entries().get(e)?;
        Some(Segment { listed: *record })
    }
}
