//! The page of a trace, but for its data: a fixed template, and texts that stand in it.
//!
//! A page is [`put_head`], some texts with names of their own, and [`put_tail`], whose script draws them. Each text stands between
//! [`put_text_begin`] and [`put_text_end`], and is escaped ([`put_escaped`]), so that it may hold any bytes: [`escapes`] says that
//! nothing in it begins a tag, and that what a browser reads of it is the text.
//!
//! The template is not written here: `tools/page-texts` makes it of the files in `page`. What the script draws is not proved: it is
//! tested in a browser.
#![tactic(auto)]

mod causes;
mod controls;
mod drawing;
mod escape;
mod head;
mod lanes;
mod lines;
mod measures;
mod parts;
mod reading;

pub use causes::CAUSES;
pub use controls::CONTROLS;
pub use drawing::DRAWING;
pub use escape::{escapes, put_escaped};
pub use head::HEAD;
pub use lanes::LANES;
pub use lines::LINES;
pub use measures::MEASURES;
pub use parts::{put_head, put_tail, put_text_begin, put_text_end};
pub use reading::READING;
