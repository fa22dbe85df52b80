//! Figures: what runs of the least and the count kind come to, said of the routes.
#![tactic(auto)]

mod costs;
mod counting;
mod finishing;
mod single;

pub use costs::least_costs;
pub use counting::count_routes;
pub use finishing::least_runs_finish;
pub use single::least_cost;
