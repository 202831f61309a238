//! Answers, drafts and refusals are printed as JSON with no space, token by token.

mod answers;
mod bearings;
mod damages;
mod drafts;
mod edits;
mod ids;
mod lists;
mod members;
mod nodes;
mod parts;
mod provisions;
mod refusals;
pub(crate) mod typed;
mod values;

pub use answers::put_answer;
pub use damages::put_damage;
pub use drafts::put_draft;
pub use refusals::{put_form_fault, put_query_rule, put_rule};
pub use values::answer_value;
