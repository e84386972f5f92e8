// Document 01's lines: specs/Cases.antt has the proved ones, and here are the records of rows, of which packs are made.
#![tactic(auto)]

mod builder;
pub mod fields;
pub mod records;
