//! Samples that are tables.
ghost use Rattle.std.specs.Prelude.{◌≡◌, ◌≤◌, length, map, Ok, MatchResult};
ghost use Rattle.sources.specs.Filling.{Accepted};
ghost use Rattle.sources.specs.Tables.{listed, table_network};
ghost use Rattle.samples.specs.Samples.{Weighed};
ghost use Rattle.samples.specs.Table.{arc, drawn, hexagon, lone, straight};
ghost use Rattle.rehearsals.specs.Said.{said};
ghost use Rattle.rehearsals.specs.Telling.{Says};

use crate::answer::Told;
use crate::asking::{cheapest_at, number_of_routes};
use crate::telling::told;
use network::{Fault, Record, Size, Weight};
use polygons::Cheapest;
use sources::Table;

/// The segment between two nodes with these choices.
fn record(tail: usize, head: usize, choices: &[Size]) -> Record
    requires { length choices.now ≤ 8 }
    ensures { said result ≡ (length choices.now, arc tail head choices.now) }
{
    let mut sizes = [Size::default(); 8];
    sizes[..choices.len()].copy_from_slice(choices);
    Record {
        tail,
        head,
        count: choices.len(),
        sizes,
    }
}

/// The table of so many nodes and these records.
fn filled(nodes: usize, records: &[Record]) -> Result<Table, Fault>
    ensures { MatchResult result (λ t. table_network t ≡ listed nodes records.now) (λ _. Accepted nodes records.now → ⊥) }
{
    let mut table = Table::new();
    table.fill(nodes, records)?;
    Ok(table)
}

/// The table of the takeoff's three segments.
fn drawn_table() -> Result<Table, Fault>
    ensures { MatchResult result (λ t. table_network t ≡ drawn.network) (λ _. ⊥) }
{
    let to_first = record(
        0,
        1,
        &[
            Size {
                price: 4,
                pressure: 1,
            },
            Size {
                price: 1,
                pressure: 3,
            },
        ],
    );
    let past = record(
        0,
        2,
        &[Size {
            price: 3,
            pressure: 3,
        }],
    );
    let from_first = record(
        1,
        2,
        &[
            Size {
                price: 2,
                pressure: 2,
            },
            Size {
                price: 1,
                pressure: 6,
            },
        ],
    );
    let table = filled(3, &[to_first, past, from_first])?;
    Ok(table)
}

/// What is told of the takeoff's target.
pub fn tell_drawn() -> Result<Told, Fault>
    ensures { MatchResult result (λ t. Says drawn t) (λ _. ⊥) }
{
    told(drawn_table()?, 2)
}

/// How many routes lead to the takeoff's target.
pub fn count_drawn() -> Result<u32, Fault>
    ensures { result ≡ Ok 5 }
{
    number_of_routes(&drawn_table()?, 2)
}

/// The least costs to the takeoff's target at three weights: where price and pressure count the same, where nothing counts,
/// and where only the pressure counts.
pub fn weigh_drawn() -> Result<[Cheapest; 3], Fault>
    ensures { MatchResult result (λ bests. bests ≡ map (λ (w : Weighed). w.best) drawn.weights) (λ _. ⊥) }
{
    let table = drawn_table()?;
    let evenly = cheapest_at(table, 2, Weight { a: 1, b: 1 })?;
    let by_nothing = cheapest_at(table, 2, Weight { a: 0, b: 0 })?;
    let by_pressure = cheapest_at(table, 2, Weight { a: 0, b: 1 })?;
    Ok([evenly, by_nothing, by_pressure])
}

/// What is told of the only node of a table without segments.
pub fn tell_lone() -> Result<Told, Fault>
    ensures { MatchResult result (λ t. Says lone t) (λ _. ⊥) }
{
    told(Table::new(), 0)
}

/// What is told of the far end of one segment, whose choices lie on one line.
pub fn tell_straight() -> Result<Told, Fault>
    ensures { MatchResult result (λ t. Says straight t) (λ _. ⊥) }
{
    let choices = [
        Size {
            price: 2,
            pressure: 2,
        },
        Size {
            price: 1,
            pressure: 1,
        },
        Size {
            price: 3,
            pressure: 3,
        },
    ];
    let table = filled(2, &[record(0, 1, &choices)])?;
    told(table, 1)
}

/// What is told of the far end of two segments in a row: the first has the corners of a square to choose from, the second
/// two ends of a slanted line.
pub fn tell_hexagon() -> Result<Told, Fault>
    ensures { MatchResult result (λ t. Says hexagon t) (λ _. ⊥) }
{
    let around = [
        Size {
            price: 0,
            pressure: 0,
        },
        Size {
            price: 1,
            pressure: 0,
        },
        Size {
            price: 1,
            pressure: 1,
        },
        Size {
            price: 0,
            pressure: 1,
        },
    ];
    let along = [
        Size {
            price: 0,
            pressure: 0,
        },
        Size {
            price: 1,
            pressure: 1,
        },
    ];
    let first = record(0, 1, &around);
    let second = record(1, 2, &along);
    let table = filled(3, &[first, second])?;
    told(table, 2)
}
