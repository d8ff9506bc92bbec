// Step bounds of accepted programs.
use crate::images::{CALL, END, JMP, JR, NO_LAYOUTS, NOP, POP, PUSH, RET, append, check_verdict};
use loading::judge_image;
use std::alloc::{AllocError, Global};
use std::test::Fail;

#[test]
fn small_programs(rt: HostRuntime) -> Result<(), Fail> {
    let cases: [(&[(u8, u8)], Option<u32>); 13] = [
        (&[(END, 0)], Some(1)),
        (&[(JMP, 0)], None),
        (&[(CALL, 2), (END, 0), (RET, 0)], Some(3)),
        (
            &[
                (PUSH, 0),
                (PUSH, 0),
                (PUSH, 0),
                (PUSH, 0),
                (PUSH, 0),
                (PUSH, 0),
                (PUSH, 0),
                (PUSH, 0),
                (END, 0),
            ],
            Some(9),
        ),
        (&[(JMP, 2), (NOP, 0), (END, 0)], Some(2)),
        (&[(JR, 2), (NOP, 0), (END, 0)], Some(3)),
        (&[(JR, 2), (END, 0), (NOP, 0), (NOP, 0), (END, 0)], Some(4)),
        (&[(JR, 0), (END, 0)], None),
        (&[(NOP, 0), (NOP, 0), (JR, 1), (END, 0)], None),
        // where nobody comes
        (&[(END, 0), (JMP, 1)], None),
        (&[(END, 0), (CALL, 3), (END, 0), (RET, 0)], Some(1)),
        // a called section may end the program, and be called twice
        (
            &[(CALL, 3), (CALL, 3), (END, 0), (NOP, 0), (END, 0)],
            Some(7),
        ),
        (&[(PUSH, 0), (JR, 3), (NOP, 0), (POP, 0), (END, 0)], Some(5)),
    ];
    for (program, bound) in cases {
        check_verdict(&rt, rt.alloc(), program, Ok(bound))?;
    }
    Ok(())
}

// A section of 98 instructions and a return weighs 99. One that calls it 100 times, with 99 instructions and a return more,
// weighs 100 * 100 + 99 + 1 = 10,100. 99 calls of that, and the end, weigh 99 * 10,101 + 1 = 1,000,000.
fn million(heap: Global, more: u16) -> Result<Vec<u8>, AllocError> {
    let mut image = Vec::new(heap);
    append(&mut image, more as usize, NOP, 0)?;
    append(&mut image, 99, CALL, 100 + more % 100)?;
    append(&mut image, 1, END, 0)?;
    append(&mut image, 100, CALL, 300 + more % 100)?;
    append(&mut image, 99, NOP, 0)?;
    append(&mut image, 1, RET, 0)?;
    append(&mut image, 98, NOP, 0)?;
    append(&mut image, 1, RET, 0)?;
    Ok(image)
}

#[test]
fn about_a_million(rt: HostRuntime) -> Result<(), Fail> {
    for (more, bound) in [(0, Some(1_000_000)), (1, None), (2, None)] {
        let image = million(rt.alloc(), more)?;
        assert_eq!(rt; judge_image(&image, &NO_LAYOUTS), Ok(bound));
    }
    Ok(())
}

// Sections of ranks 0 to 7 with 112 calls each of the next, and one of rank 8: 1,024 instructions. The weight multiplies by
// more than 112 with each rank, past all numbers of 32 bits.
#[test]
fn enormous_weights(rt: HostRuntime) -> Result<(), Fail> {
    let mut image = Vec::new(rt.alloc());
    for rank in 0..8 {
        append(&mut image, 112, CALL, 113 * (rank + 1))?;
        append(&mut image, 1, if rank == 0 { END } else { RET }, 0)?;
    }
    append(&mut image, 119, NOP, 0)?;
    append(&mut image, 1, RET, 0)?;
    assert_eq!(rt; image.len(), 5120);
    assert_eq!(rt; judge_image(&image, &NO_LAYOUTS), Ok(None));
    Ok(())
}
