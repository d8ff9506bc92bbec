// Record sources over a caller's bytes: tables of records that lie row after row, or column after column.
#![tactic(auto)]

mod arrangement;
mod page;
mod placement;
mod refusal;

pub use arrangement::{Arrangement, ByColumns, ByRows};
pub use page::{ColumnPage, Page, RowPage};
pub use placement::Placement;
pub use refusal::Refusal;
