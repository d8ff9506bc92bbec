// A row page and a column page that are asked the same.
use crate::expected::{check_base, check_only};
use pages::{ColumnPage, Placement, Refusal, RowPage};
use records::Source;
use std::process::Abort;

#[derive(Drop)]
pub struct Both<'a> {
    pub rows: RowPage<'a>,
    pub columns: ColumnPage<'a>,
}

impl<'a> Both<'a> {
    pub fn new(by_rows: &'a [u8], by_columns: &'a [u8]) -> Both<'a> {
        Both {
            rows: RowPage::new(by_rows),
            columns: ColumnPage::new(by_columns),
        }
    }

    // Both pages give this answer: 0 where they take the placement, else the refusal's number. It stays a number, as the rules
    // list it, so that the tables test the refusal's number too.
    pub fn place(&mut self, rt: &impl Abort, base: u8, placement: Placement, answer: u8) {
        let answers = (
            number_of(self.rows.place(base, placement)),
            number_of(self.columns.place(base, placement)),
        );
        assert_eq!(rt; answers, (answer, answer), "base {base}, {placement:?}");
    }

    // The answer is a number, as in `place`.
    pub fn turn(&mut self, rt: &impl Abort, base: u8, row: u32, answer: u8) {
        let answers = (
            number_of(self.rows.turn(base, row)),
            number_of(self.columns.turn(base, row)),
        );
        assert_eq!(rt; answers, (answer, answer), "base {base}, row {row}");
    }

    // How long the records of a base are in each.
    pub fn lengths(&self, base: u8) -> (u16, u16) {
        (
            self.rows.layout(base).length,
            self.columns.layout(base).length,
        )
    }

    // Both pages show these records.
    pub fn check_base(&self, rt: &impl Abort, base: u8, current: &[u8], previous: &[u8]) {
        check_base(rt, "in rows", &self.rows, base, current, previous);
        check_base(rt, "in columns", &self.columns, base, current, previous);
    }

    // No other base is there in either.
    pub fn check_only(&self, rt: &impl Abort, present: u8) {
        check_only(rt, "in rows", &self.rows, present);
        check_only(rt, "in columns", &self.columns, present);
    }
}

fn number_of(answer: Result<(), Refusal>) -> u8 {
    answer.err().map_or(0, u8::from)
}
