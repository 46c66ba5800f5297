//! A folder that is seen once, and is still written.
#![tactic(auto)]

mod held;
mod kept;
mod known;
mod outer;
mod seeing;
mod seen;

pub use known::Known;
pub use outer::Outer;
pub use seeing::{Seeing, see_names};
pub use seen::Seen;
