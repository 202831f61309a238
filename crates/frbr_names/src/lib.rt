//! The IRIs of works and of expressions: how they are read, and how they are spelled.
#![tactic(auto)]

mod date;
mod expression_iri;
mod expression_reading;
mod expression_spelling;
mod fault;
pub mod laws;
mod parts;
mod rules;
#[cfg(test)]
mod tests;
mod work_iri;
mod work_name;
mod work_reading;

pub use date::IriDate;
pub use expression_iri::ExpressionIri;
pub use expression_reading::{is_expression, parse_expression};
pub use expression_spelling::{spelled_expression, spelled_language};
pub use fault::{NameFault, NameRule};
pub use rules::is_portion;
pub use work_iri::WorkIri;
pub use work_name::WorkName;
pub use work_reading::parse_work;
