// A metering site's archive of half-hour records, and what each step of a walk over it shows.
#![tactic(auto)]

mod archive;
mod copy;
mod fault;
mod hex;
mod parts;
mod reading;
mod record;
mod transpose;

pub use archive::Archive;
pub use copy::copy_record;
pub use fault::ArchiveFault;
pub use reading::parse_bytes;
pub use record::{Growth, check_sum_holds, total};
pub use transpose::columns;
