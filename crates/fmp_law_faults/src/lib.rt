//! Which fault a text has first: tables of faults that know no reader, and that both agree.
//!
//! There is no code here: a law is the contract of a function without a body. A table is rows of faults, each where none above it is there, which speak of
//! words and of what stands before them. `faults_of_questions_are_those_of_the_table` is that of questions (`specs/QuestionFaults`), and
//! `faults_for_ever_are_those_of_the_table` that of questions of what stays for ever (`specs/LastingFaults`). Of configurations
//! `faults_of_first_words_are_those_of_the_table` and `faults_within_statements_are_those_of_the_table` are those of statements (`specs/StatementFaults`), and
//! `faults_of_directives_are_those_of_the_table` is that of directives (`specs/DirectiveFaults`) and
//! `faults_of_ends_are_those_of_the_table` that of the end (`specs/EndFaults`); where a token stands is in `specs/Statements`.
#![tactic(auto)]

mod laws;

pub use laws::{
    faults_for_ever_are_those_of_the_table, faults_of_directives_are_those_of_the_table,
    faults_of_ends_are_those_of_the_table, faults_of_first_words_are_those_of_the_table,
    faults_of_questions_are_those_of_the_table, faults_within_statements_are_those_of_the_table,
};
