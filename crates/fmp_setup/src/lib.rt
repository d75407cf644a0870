//! A configuration: processors, classes, objects and names, valid by its type, and how it grows.
//!
//! The definitions are in `specs/`, to be read in the order of `specs/Lib.antt`: `Setup` says what a configuration says, `Valid`
//! when it is valid. No rule of the kernel is here; those stand in `fmp_rules`.
//!
//! [`Config`] is `IsValid` by its type, and grows by [`Parts`], into which `fmp_config` reads a text.
#![tactic(auto)]

mod config;
mod equality;
mod parts;
mod setup;

pub use config::{Config, is_class_of};
pub use parts::{CyclicFields, Fields, NamedClass, Parts, TaskFields};
pub use setup::{
    AlarmSetup, Class, CyclicSetup, DataQueueSetup, EventflagSetup, Limits, Order, PoolSetup,
    SemaphoreSetup, TaskSetup, Timer,
};
