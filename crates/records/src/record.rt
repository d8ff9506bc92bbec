// Which of a base's two records is meant.
#[derive(Clone, Copy, PartialEq, Eq, Debug)]
pub enum Record {
    Current,
    Previous,
}
