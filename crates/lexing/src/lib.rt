//! The tokens of a structural Verilog text (IEEE 1364-2005, 3): which bytes spell which tokens, the longest token at each
//! place, with white space, comments and attributes between.
#![tactic(auto)]

mod classes;
mod columns;
mod constants;
mod directives;
pub mod laws;
mod lexemes;
mod limits;
mod lines;
mod numbers;
mod scan;
mod show;
mod spaces;
mod token;
mod token_list;

pub use columns::column;
pub use constants::constant_value;
pub use directives::timescale;
pub use limits::MAX_TEXT;
pub use lines::line;
pub use numbers::number_value;
pub use scan::next_token;
pub use show::shown;
pub use token::{Shape, Token};
pub use token_list::tokens;
