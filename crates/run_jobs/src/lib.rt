//! Jobs that run a program or a kernel by workers, or say what each run prints, from bytes to lines and
//! a status. A program is run, certified, or both; a kernel is run and its values are printed.
#![tactic(auto)]

mod asking;
mod certain;
mod certifying;
mod ending;
mod live_kernels;
mod living;
mod printing;
mod row;
mod running;
mod working;

pub use asking::run_program;
pub use certain::{certain_bytes, certain_on};
pub use certifying::{certificate_of, certify_bytes, certify_on};
pub use ending::NoCertificate;
pub use live_kernels::{live_pipeline_on, live_stencil_on};
pub use live_rt::Pulses;
pub use living::{Progress, Silent, live_bytes, live_on};
pub use phased_rt::Workers;
pub use printing::{Kernel, end_kernel, print_report};
pub use running::{pipeline_on, stencil_on};
pub use working::{run_bytes, run_on};
