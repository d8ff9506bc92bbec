// The first rule that a program breaks, and where.
use crate::images::{
    CALL, END, JMP, JR, L, NO_LAYOUTS, NOP, POP, PUSH, RET, STRANGE, UNKNOWN, append,
    check_refusals, refused,
};
use control::LoadingCode;
use loading::judge_image;
use std::test::Fail;

// The rules of each instruction by itself come first, in the order of the instructions, whatever the other rules say of those
// before.
#[test]
fn first_pass(rt: HostRuntime) -> Result<(), Fail> {
    let cases: &[(&[(u8, u8)], LoadingCode, u16)] = &[
        (
            &[(NOP, 0), (UNKNOWN, 0), (L, STRANGE), (JMP, 4)],
            LoadingCode::UnknownOpcode,
            1,
        ),
        (
            &[(NOP, 0), (L, STRANGE), (UNKNOWN, 0), (JMP, 4)],
            LoadingCode::BadOperand,
            1,
        ),
        (
            &[(NOP, 0), (JMP, 4), (UNKNOWN, 0), (L, STRANGE)],
            LoadingCode::BadAddress,
            1,
        ),
        (
            &[(POP, 0), (RET, 0), (UNKNOWN, 0)],
            LoadingCode::UnknownOpcode,
            2,
        ),
        (
            &[(POP, 0), (CALL, 0), (L, STRANGE)],
            LoadingCode::BadOperand,
            2,
        ),
        (&[(POP, 0), (JR, 2)], LoadingCode::BadAddress, 1),
        (&[(CALL, 2), (END, 0)], LoadingCode::BadAddress, 0),
    ];
    check_refusals(&rt, rt.alloc(), cases)
}

// Each code with other faults at later instructions. 05 is among the ranks.
#[test]
fn in_company(rt: HostRuntime) -> Result<(), Fail> {
    let cases: &[(&[(u8, u8)], LoadingCode, u16)] = &[
        (
            &[
                (PUSH, 0),
                (PUSH, 0),
                (PUSH, 0),
                (PUSH, 0),
                (PUSH, 0),
                (PUSH, 0),
                (PUSH, 0),
                (PUSH, 0),
                (PUSH, 0),
                (JMP, 0),
                (RET, 0),
            ],
            LoadingCode::PushAtEight,
            8,
        ),
        (&[(POP, 0), (RET, 0)], LoadingCode::PopAtZero, 0),
        (
            &[(JMP, 2), (PUSH, 0), (END, 0), (RET, 0)],
            LoadingCode::DepthDiffers,
            0,
        ),
        (
            &[(CALL, 3), (JMP, 3), (RET, 0), (RET, 0)],
            LoadingCode::LeavesSection,
            1,
        ),
        (
            &[(CALL, 2), (NOP, 0), (POP, 0), (END, 0)],
            LoadingCode::SectionRunsOn,
            1,
        ),
        (&[(CALL, 0), (RET, 0)], LoadingCode::CallsBack, 0),
        (&[(RET, 0), (POP, 0)], LoadingCode::ReturnOutside, 0),
    ];
    check_refusals(&rt, rt.alloc(), cases)
}

// Of two faults of one instruction the earlier in the order of the rules is told.
#[test]
fn two_at_once(rt: HostRuntime) -> Result<(), Fail> {
    let cases: &[(&[(u8, u8)], LoadingCode, u16)] = &[
        // 03 and 13
        (&[(PUSH, 0); 9], LoadingCode::PushAtEight, 8),
        // 04 and 13
        (&[(POP, 0)], LoadingCode::PopAtZero, 0),
        // 11 and 12
        (
            &[(JMP, 3), (PUSH, 0), (CALL, 3), (END, 0)],
            LoadingCode::DepthDiffers,
            0,
        ),
        // 11 and 13
        (&[(PUSH, 0), (JR, 0)], LoadingCode::DepthDiffers, 1),
        // 11 and 14
        (
            &[(PUSH, 0), (CALL, 0), (END, 0)],
            LoadingCode::DepthDiffers,
            1,
        ),
        // 11 and 06
        (&[(PUSH, 0), (RET, 0)], LoadingCode::DepthDiffers, 1),
        // 12 and 13
        (
            &[(CALL, 2), (JR, 2), (RET, 0)],
            LoadingCode::LeavesSection,
            1,
        ),
        // 13 and 14
        (&[(NOP, 0), (CALL, 0)], LoadingCode::SectionRunsOn, 1),
        (&[(CALL, 0)], LoadingCode::SectionRunsOn, 0),
    ];
    check_refusals(&rt, rt.alloc(), cases)
}

// The depth goes on as a plain number below 0 and above 8.
#[test]
fn depths_out_of_range(rt: HostRuntime) -> Result<(), Fail> {
    let cases: &[(&[(u8, u8)], LoadingCode, u16)] = &[
        (
            &[(JR, 3), (POP, 0), (PUSH, 0), (END, 0)],
            LoadingCode::PopAtZero,
            1,
        ),
        (
            &[(JR, 5), (POP, 0), (POP, 0), (PUSH, 0), (PUSH, 0), (END, 0)],
            LoadingCode::PopAtZero,
            1,
        ),
        (&[(JR, 2), (POP, 0), (END, 0)], LoadingCode::DepthDiffers, 0),
        (
            &[(CALL, 3), (END, 0), (POP, 0), (RET, 0)],
            LoadingCode::DepthDiffers,
            0,
        ),
        (
            &[(JMP, 4), (POP, 0), (PUSH, 0), (PUSH, 0), (END, 0)],
            LoadingCode::DepthDiffers,
            0,
        ),
        (
            &[
                (PUSH, 0),
                (PUSH, 0),
                (PUSH, 0),
                (PUSH, 0),
                (PUSH, 0),
                (PUSH, 0),
                (PUSH, 0),
                (PUSH, 0),
                (JR, 10),
                (PUSH, 0),
                (END, 0),
            ],
            LoadingCode::DepthDiffers,
            8,
        ),
    ];
    check_refusals(&rt, rt.alloc(), cases)
}

// A jump over nine pushes and nine pops, and into the midst of them.
#[test]
fn nine_deep(rt: HostRuntime) -> Result<(), Fail> {
    for (target, code, number) in [
        (19, LoadingCode::PushAtEight, 9),
        (18, LoadingCode::DepthDiffers, 0),
        (10, LoadingCode::DepthDiffers, 0),
        (1, LoadingCode::PushAtEight, 9),
    ] {
        let mut image = Vec::new(rt.alloc());
        append(&mut image, 1, JR, target)?;
        append(&mut image, 9, PUSH, 0)?;
        append(&mut image, 9, POP, 0)?;
        append(&mut image, 1, END, 0)?;
        assert_eq!(rt;
            judge_image(&image, &NO_LAYOUTS),
            refused(code, number),
            "to {target}"
        );
    }
    Ok(())
}

// Every called address begins a section, be the call backward or never reached.
#[test]
fn sections(rt: HostRuntime) -> Result<(), Fail> {
    let cases: &[(&[(u8, u8)], LoadingCode, u16)] = &[
        (
            &[(NOP, 0), (NOP, 0), (CALL, 1), (END, 0)],
            LoadingCode::SectionRunsOn,
            0,
        ),
        (
            &[(END, 0), (NOP, 0), (CALL, 1), (END, 0)],
            LoadingCode::CallsBack,
            2,
        ),
        (
            &[(JR, 2), (END, 0), (NOP, 0), (CALL, 2), (END, 0)],
            LoadingCode::LeavesSection,
            0,
        ),
        (
            &[(END, 0), (CALL, 3), (NOP, 0), (RET, 0)],
            LoadingCode::SectionRunsOn,
            2,
        ),
        (&[(END, 0), (POP, 0), (END, 0)], LoadingCode::PopAtZero, 1),
        (
            &[(CALL, 3), (CALL, 4), (END, 0), (JMP, 4), (RET, 0)],
            LoadingCode::LeavesSection,
            3,
        ),
    ];
    check_refusals(&rt, rt.alloc(), cases)
}
