// Tables, fields and the rules of fields in words.
#![tactic(auto)]

pub mod field_names;
pub mod field_rules;
pub mod words;
