//! How a job of the program ends: its failures and the line that reports each, the exit statuses, and
//! the bytes of a reader up to a limit. The jobs themselves stand in the crates above.
#![tactic(auto)]

mod failure;
mod input;
mod output;

pub use failure::{Ending, Failure, Status};
pub use input::{ReadAll, Reads, bytes_of, read_all};
pub use output::{put_text, write_text};
