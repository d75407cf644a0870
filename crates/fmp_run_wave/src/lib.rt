//! The waveform of a trace, as a Value Change Dump (IEEE 1364) that a viewer such as GTKWave opens.
//!
//! [`run_wave`] reads a configuration and a trace, and draws the trace where it is the machine's own: an event is a unit of
//! time. What is drawn is stated in `specs/Waves` as a function of the events, over the model's states: which signals there are
//! (`Signals`, `Resources`), how they are declared (`Listing`, `Headers`), what each state shows (`Shown`), the value of each signal
//! (`Values`), and the lines of those that changed (`Changes`). docs/FORMATS.md has its form. It is drawn while the trace is judged, of the
//! plain machine that judges, and kept until the verdict is known.
//!
//! [`run_save`] reads a configuration alone, and writes the save file by which GTKWave shows all these signals (`specs/Saves`): the
//! same list of signals, in another form.
//!
//! That a viewer shows it is only tested, by a reader written from the standard (`tests/program/waves.py`).
#![tactic(auto)]

mod changes;
mod drawing;
mod header;
mod listing;
mod resource;
mod run;
mod save;
mod signal;
mod snapshot;
mod values;

pub use run::run_wave;
pub use save::run_save;
