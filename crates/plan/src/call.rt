//! The calls of a plan as plain values, and what they answer.
use network::{Cost, Fault, Ray, Weight};
use polygons::Cheapest;

/// A call of a plan. A route names, behind its node and corner, the place where a part of the steps begins and how long
/// the part is; it is written there.
// Numbers side by side, in the order in which the methods take them: a struct of node and corner, of the part or of the two
// rays of a reply would be made for one call and taken apart in it.
#[derive(Clone, Copy, Debug, PartialEq, Eq)]
pub enum Call {
    Start(usize),
    Settle,
    Count(usize),
    Corner(usize, usize),
    Cone(usize, usize),
    Cheapest(usize, Weight),
    Route(usize, usize, usize, usize),
}

/// What an accepted call answers: a route, how many steps it wrote.
#[derive(Clone, Copy, Debug, PartialEq, Eq)]
pub enum Reply {
    Done,
    Count(usize),
    Corner(Cost),
    Cone(Ray, Ray),
    Cheapest(Cheapest),
    Route(usize),
}
