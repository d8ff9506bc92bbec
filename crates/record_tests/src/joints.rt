// What joints of sources show.
use crate::expected::{check_base, check_only};
use pages::{ColumnPage, Placement, RowPage};
use records::{Joint, Layout, agree};
use std::test::*;

// Two rows of two bytes, of which the second is current.
const TWO_ROWS: Placement = Placement {
    layout: Layout { length: 2 },
    start: 0,
    rows: 2,
    row: 1,
};

// As many rows, of one byte.
const NARROW: Placement = Placement {
    layout: Layout { length: 1 },
    start: 0,
    rows: 2,
    row: 1,
};

#[test]
fn current_of_the_first_previous_of_the_second(rt: HostRuntime) -> Result<(), Fail> {
    let mut a = RowPage::new(&[10, 11, 12, 13]);
    let mut b = ColumnPage::new(&[20, 21, 22, 23]);
    a.place(5, TWO_ROWS)?;
    b.place(5, TWO_ROWS)?;
    check_base(
        &rt,
        "in the joint",
        &Joint::new(&a, &b),
        5,
        &[12, 13],
        &[20, 22],
    );
    check_base(
        &rt,
        "in the joint",
        &Joint::new(&b, &a),
        5,
        &[21, 23],
        &[10, 11],
    );
    check_only(&rt, "in the joint", &Joint::new(a, b), 5);
    Ok(())
}

// Base 0 is alike, base 1 longer in one, and bases 2 and 7 absent in one.
#[test]
fn differing_layouts_are_absent(rt: HostRuntime) -> Result<(), Fail> {
    let mut a = RowPage::new(&[10, 11, 12, 13]);
    a.place(0, TWO_ROWS)?;
    a.place(1, TWO_ROWS)?;
    a.place(2, TWO_ROWS)?;
    let mut b = RowPage::new(&[20, 21, 22, 23]);
    b.place(0, TWO_ROWS)?;
    b.place(1, NARROW)?;
    b.place(7, TWO_ROWS)?;
    let joint = Joint::new(&a, &b);
    check_base(&rt, "in the joint", &joint, 0, &[12, 13], &[20, 21]);
    check_only(&rt, "in the joint", &joint, 0);
    check_only(&rt, "in the joint", &Joint::new(&b, &a), 0);
    Ok(())
}

// Base 1 differs within the first joint, and base 2 between the two.
#[test]
fn joints_of_joints(rt: HostRuntime) -> Result<(), Fail> {
    let mut a = RowPage::new(&[10, 11, 12, 13]);
    let mut b = RowPage::new(&[20, 21, 22, 23]);
    let mut c = RowPage::new(&[30, 31, 32, 33]);
    for (base, in_a, in_b, in_c) in [
        (0, TWO_ROWS, TWO_ROWS, TWO_ROWS),
        (1, NARROW, TWO_ROWS, TWO_ROWS),
        (2, TWO_ROWS, TWO_ROWS, NARROW),
    ] {
        a.place(base, in_a)?;
        b.place(base, in_b)?;
        c.place(base, in_c)?;
    }
    let joint = Joint::new(Joint::new(&a, &b), Joint::new(&b, &c));
    check_base(&rt, "in the joint", &joint, 0, &[12, 13], &[30, 31]);
    check_only(&rt, "in the joint", &joint, 0);
    Ok(())
}

#[test]
fn a_joint_of_one_source_is_that_source(rt: HostRuntime) -> Result<(), Fail> {
    let mut a = RowPage::new(&[10, 11, 12, 13]);
    a.place(0, TWO_ROWS)?;
    a.place(7, NARROW)?;
    let joint = Joint::new(&a, &a);
    check_base(&rt, "in the joint", &joint, 0, &[12, 13], &[10, 11]);
    check_base(&rt, "in the joint", &joint, 7, &[11], &[10]);
    assert!(rt; agree(&joint, &a));
    Ok(())
}
