//! The kernels that a host with an extension has, and the host has not: found from the extension's markers on, by following symbols.
//!
//! The kernels of the host stay as they are. What the words mean is in `wb_determinism_theory`; kernels of one grammar are in `wb_items`.
#![tactic(auto)]

mod advance;
mod before_hole;
mod beside;
mod compare;
mod follow;
mod index;
mod kernel_of_symbol;
mod markers;
mod moved;
mod new_kernels;
mod numbering;
mod numbers;
mod places;
mod search;
mod starts;

pub use beside::Beside;
pub use new_kernels::NewKernels;
pub use numbers::{Added, Numbers, host_item};
pub use starts::Start;
