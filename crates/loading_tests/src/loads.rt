// Programs that take one image after another.
use crate::images::{CALL, END, JMP, NO_LAYOUTS, NOP, PUSH, RET, image_of, refused};
use control::LoadingCode;
use loading::{LoadError, Program};
use std::process::Abort;
use std::test::Fail;

// By number, as programs here are.
fn check_program(rt: &impl Abort, program: &Program, opcodes: &[u8], bound: Option<u32>) {
    assert_eq!(rt; usize::from(program.count()), opcodes.len());
    assert_eq!(rt; program.instructions().len(), opcodes.len());
    assert_eq!(rt; program.step_bound(), bound);
    for (n, &opcode) in (0..).zip(opcodes) {
        let found = program
            .instruction(n)
            .map(|instruction| u8::from(instruction.opcode));
        assert_eq!(rt; found, Some(opcode));
    }
    for (instruction, &opcode) in program.instructions().iter().zip(opcodes) {
        assert_eq!(rt; u8::from(instruction.opcode), opcode);
    }
    assert!(rt; program.instruction(program.count()).is_none());
}

#[test]
fn one_after_another(rt: HostRuntime) -> Result<(), Fail> {
    let heap = rt.alloc();
    let mut program = Program::new();
    check_program(&rt, &program, &[], None);

    let call = image_of(heap, &[(CALL, 2), (END, 0), (RET, 0)])?;
    assert_eq!(rt; program.load(&call, &NO_LAYOUTS), Ok(Some(3)));
    check_program(&rt, &program, &[CALL, END, RET], Some(3));

    // refused ones leave the program before them
    let running_on = image_of(heap, &[(PUSH, 0), (NOP, 0)])?;
    assert_eq!(rt;
        program.load(&running_on, &NO_LAYOUTS),
        refused(LoadingCode::SectionRunsOn, 1)
    );
    check_program(&rt, &program, &[CALL, END, RET], Some(3));
    assert_eq!(rt;
        program.load(&[0xff], &NO_LAYOUTS),
        Err(LoadError::BadLength)
    );
    check_program(&rt, &program, &[CALL, END, RET], Some(3));

    // a shorter one with a loop
    let forever = image_of(heap, &[(JMP, 0), (END, 0)])?;
    assert_eq!(rt; program.load(&forever, &NO_LAYOUTS), Ok(None));
    check_program(&rt, &program, &[JMP, END], None);
    Ok(())
}
