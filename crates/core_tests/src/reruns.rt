//! Runs from former runs, beside runs worked out by hand and beside a reference implementation.

mod definition;
mod gates;
mod horizons;
mod many_drivers;
mod many_points;
pub mod plain;
mod pulls;
pub mod random;
mod rows;
mod ways;
