// Ranks of sections: a call in one of rank 8 is too deep.
use crate::images::{CALL, END, POP, PUSH, RET, check_verdict, refused};
use control::LoadingCode;
use std::test::Fail;

// A section of rank k at 2k, for k from 0 to 8, and one that the last calls.
const CHAIN: [(u8, u8); 19] = [
    (CALL, 2),
    (END, 0),
    (CALL, 4),
    (RET, 0),
    (CALL, 6),
    (RET, 0),
    (CALL, 8),
    (RET, 0),
    (CALL, 10),
    (RET, 0),
    (CALL, 12),
    (RET, 0),
    (CALL, 14),
    (RET, 0),
    (CALL, 16),
    (RET, 0),
    (CALL, 18),
    (RET, 0),
    (RET, 0),
];

// Eight calls, eight returns and the end.
#[test]
fn rank_eight(rt: HostRuntime) -> Result<(), Fail> {
    let heap = rt.alloc();
    check_verdict(&rt, heap, &CHAIN, refused(LoadingCode::CallTooDeep, 16))?;
    let mut without = CHAIN;
    without[16] = (RET, 0);
    check_verdict(&rt, heap, &without, Ok(Some(17)))?;
    // 13 and 05: the call goes on to the section that it calls
    let mut last = CHAIN;
    last[16] = (CALL, 17);
    check_verdict(&rt, heap, &last, refused(LoadingCode::SectionRunsOn, 16))?;
    // 14 and 05
    let mut back = CHAIN;
    back[16] = (CALL, 16);
    check_verdict(&rt, heap, &back, refused(LoadingCode::CallsBack, 16))?;
    // 11, 13 and 05: the call is made with a bit held
    let mut held = CHAIN;
    held[16] = (PUSH, 0);
    held[17] = (CALL, 18);
    check_verdict(&rt, heap, &held, refused(LoadingCode::DepthDiffers, 17))?;
    // 05 before a pop at depth 0 that is also the last instruction, and that pop without the 05
    let mut company = CHAIN;
    company[18] = (POP, 0);
    check_verdict(&rt, heap, &company, refused(LoadingCode::CallTooDeep, 16))?;
    company[16] = (RET, 0);
    check_verdict(&rt, heap, &company, refused(LoadingCode::PopAtZero, 18))
}

// Section 0 calls 3 and 17. From 3 on a chain of ranks 1 to 7, whose last calls 19; 17, of rank 1, calls 19 too, and 19 calls
// 21.
const SHARED: [(u8, u8); 22] = [
    (CALL, 3),
    (CALL, 17),
    (END, 0),
    (CALL, 5),
    (RET, 0),
    (CALL, 7),
    (RET, 0),
    (CALL, 9),
    (RET, 0),
    (CALL, 11),
    (RET, 0),
    (CALL, 13),
    (RET, 0),
    (CALL, 15),
    (RET, 0),
    (CALL, 19),
    (RET, 0),
    (CALL, 19),
    (RET, 0),
    (CALL, 21),
    (RET, 0),
    (RET, 0),
];

// The highest rank of a caller counts, and not the first or the last one.
#[test]
fn called_from_several_ranks(rt: HostRuntime) -> Result<(), Fail> {
    let heap = rt.alloc();
    check_verdict(&rt, heap, &SHARED, refused(LoadingCode::CallTooDeep, 19))?;
    let mut without = SHARED;
    without[19] = (RET, 0);
    without[20] = (CALL, 21);
    // 13 and 05: 20 is the last of its section
    check_verdict(&rt, heap, &without, refused(LoadingCode::SectionRunsOn, 20))?;
    without[20] = (RET, 0);
    check_verdict(&rt, heap, &without, Ok(Some(21)))?;
    // 17 now has rank 8, as 15 calls it, though section 0 does so as well
    let mut first = SHARED;
    first[15] = (CALL, 17);
    check_verdict(&rt, heap, &first, refused(LoadingCode::CallTooDeep, 17))?;
    // without the call of 15 all ranks are below 8: 19 has rank 2
    let mut low = SHARED;
    low[15] = (RET, 0);
    check_verdict(&rt, heap, &low, Ok(Some(21)))
}

// A section of rank k at 2k - 1, for k from 1 to 9; only the last calls 1.
const BEHIND: [(u8, u8); 19] = [
    (END, 0),
    (CALL, 3),
    (RET, 0),
    (CALL, 5),
    (RET, 0),
    (CALL, 7),
    (RET, 0),
    (CALL, 9),
    (RET, 0),
    (CALL, 11),
    (RET, 0),
    (CALL, 13),
    (RET, 0),
    (CALL, 15),
    (RET, 0),
    (CALL, 17),
    (RET, 0),
    (CALL, 1),
    (RET, 0),
];

// A section that is called from higher numbers alone has rank 1.
#[test]
fn called_from_behind(rt: HostRuntime) -> Result<(), Fail> {
    let heap = rt.alloc();
    check_verdict(&rt, heap, &BEHIND, refused(LoadingCode::CallTooDeep, 15))?;
    // 14 and 05
    let mut sooner = BEHIND;
    sooner[15] = (CALL, 1);
    check_verdict(&rt, heap, &sooner, refused(LoadingCode::CallsBack, 15))?;
    // without the calls at 11 and 13 the rank of 17 is 7, so that only 14 is left
    let mut low = BEHIND;
    low[11] = (RET, 0);
    low[13] = (RET, 0);
    check_verdict(&rt, heap, &low, refused(LoadingCode::CallsBack, 17))
}
