// Recorder records as a program sees them: layouts, the two records of a base, and the sources that answer their bytes.
#![tactic(auto)]

mod agreement;
mod joint;
mod layout;
mod record;
mod source;

pub use agreement::agree;
pub use joint::Joint;
pub use layout::Layout;
pub use record::Record;
pub use source::Source;
