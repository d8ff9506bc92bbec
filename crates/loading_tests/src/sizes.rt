// Images of every length, and addresses up to the last.
use crate::images::{CALL, END, JMP, NO_LAYOUTS, NOP, RET, append, refused};
use control::LoadingCode;
use loading::{LoadError, judge_image};
use std::test::Fail;

// Bytes FF are instructions that end the program.
#[test]
fn whole_instructions_only(rt: HostRuntime) -> Result<(), Fail> {
    for (length, expected) in [
        (0, Err(LoadError::BadLength)),
        (1, Err(LoadError::BadLength)),
        (4, Err(LoadError::BadLength)),
        (5, Ok(Some(1))),
        (6, Err(LoadError::BadLength)),
        (9, Err(LoadError::BadLength)),
        (10, Ok(Some(1))),
        (5119, Err(LoadError::BadLength)),
        (5120, Ok(Some(1))),
        (5121, Err(LoadError::BadLength)),
        (5125, Err(LoadError::BadLength)),
        (10_240, Err(LoadError::BadLength)),
    ] {
        let image = vec![in rt.alloc(); 0xff; length]?;
        assert_eq!(rt;
            judge_image(&image, &NO_LAYOUTS),
            expected,
            "{length} bytes"
        );
    }
    Ok(())
}

// 1,024 instructions: the first is given, NOP follows, and the last is given.
#[test]
fn longest_programs(rt: HostRuntime) -> Result<(), Fail> {
    for (first, address, last, expected) in [
        (NOP, 0, END, Ok(Some(1024))),
        (NOP, 0, NOP, refused(LoadingCode::SectionRunsOn, 1023)),
        (JMP, 1023, END, Ok(Some(2))),
        (JMP, 256, END, Ok(Some(769))),
        (JMP, 1024, END, refused(LoadingCode::BadAddress, 0)),
        (JMP, 65_535, END, refused(LoadingCode::BadAddress, 0)),
        (CALL, 1023, RET, refused(LoadingCode::SectionRunsOn, 1022)),
        (CALL, 1024, RET, refused(LoadingCode::BadAddress, 0)),
    ] {
        let mut image = Vec::new(rt.alloc());
        append(&mut image, 1, first, address)?;
        append(&mut image, 1022, NOP, 0)?;
        append(&mut image, 1, last, 0)?;
        assert_eq!(rt;
            judge_image(&image, &NO_LAYOUTS),
            expected,
            "{first:02X} {address}, {last:02X}"
        );
    }
    Ok(())
}
