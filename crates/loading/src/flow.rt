// What an opcode does to the flow of control.
ghost use Rattle.std.specs.Prelude.{◌≡◌};
ghost use Rattle.opcodes.specs.Families.{takes_address};
ghost use Rattle.opcodes.specs.Numbers.{number};
ghost use Rattle.loading.specs.Instructions.{control_of};

use control::Control;
use opcodes::Opcode;

pub fn control_of(opcode: Opcode, target: u16) -> Control
    ensures { result ≡ control_of (number opcode) target }
{
    match opcode {
        Opcode::PushL | Opcode::PushLn => Control::Push,
        Opcode::PopA
        | Opcode::PopAn
        | Opcode::PopO
        | Opcode::PopOn
        | Opcode::PopX
        | Opcode::PopXn => Control::Pop,
        Opcode::Jr | Opcode::Jnr | Opcode::Jp | Opcode::Jm | Opcode::Jz | Opcode::Jnz => {
            Control::JumpIf(target)
        }
        Opcode::Jmp => Control::Jump(target),
        Opcode::Call => Control::Call(target),
        Opcode::Ret => Control::Return,
        Opcode::End => Control::End,
        _ => Control::Plain,
    }
}

// The jumps and the call. A list beside that of `control_of`, since decoding asks it where there is no control.
pub fn takes_address(opcode: Opcode) -> bool
    ensures { result ≡ takes_address (number opcode) }
{
    matches!(
        opcode,
        Opcode::Jr
            | Opcode::Jnr
            | Opcode::Jp
            | Opcode::Jm
            | Opcode::Jz
            | Opcode::Jnz
            | Opcode::Jmp
            | Opcode::Call
    )
}
