//! Polygons: a kind whose values are the cheapest costs at every weight.
#![tactic(auto)]

mod cheapest;
mod hulling;
mod hulls;
mod marching;
mod minkowski;
mod polygon;
mod rounds;
mod theorems;
mod turning;

pub use cheapest::Cheapest;
pub use hulling::hull;
pub use hulls::Hulls;
pub use minkowski::sum;
pub use polygon::Polygon;
pub use theorems::meaning_fixes_corners;
