//! Units that are one function of one `return` of an integer expression over its parameters.
#![tactic(auto)]

pub mod form;

pub use form::{Form, form_of};
