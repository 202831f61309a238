//! The JSON forms of the desk: a dossier or a command is read, and an answer, a draft or a refusal is printed.
#![tactic(auto)]

mod asked;
mod dossier;
mod fault;
pub mod laws;
mod printing;
mod reading;

pub use asked::Asked;
pub use dossier::Dossier;
pub use fault::{FormFault, FormRule, ReadFail};
pub use printing::{
    answer_value, put_answer, put_damage, put_draft, put_form_fault, put_query_rule, put_rule,
};
pub use reading::{MAX_DOSSIER_BYTES, read_command, read_dossier};
