//! How the text of a configuration is read.
//!
//! [`read_config`] gives the configuration of a text, or its first fault in reading order with its line and its word. It takes
//! the tokens one by one: a [`Reader`] hands each to the statement or the directive that it belongs to, and a [`Draft`] judges
//! what is whole, and grows.
//!
//! Its contract is exact: the answer is that of `config_in` (`specs/Reading`), a fold over the tokens, unless memory ran out.
//! What a text says apart from how it is read stands in `fmp_law_config`, with the proof that both agree.
#![tactic(auto)]

mod draft;
mod fault;
mod indexed;
mod numbers;
mod reader;
mod reading;

pub use draft::{Draft, OpenClass, Phase};
pub use fault::ConfigFault;
pub use fmp_config_statements::ConfigKind;
pub use fmp_setup::Config;
pub use indexed::IndexedParts;
pub use numbers::Numbers;
pub use reader::Reader;
pub use reading::{MOST_BYTES, read_config};
