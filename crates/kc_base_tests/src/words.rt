use crate::asserts::equal;
use kc_machine_words::*;
use std::test::Fail;

#[test]
fn the_words_of_a_descriptor_have_their_bits(rt: HostRuntime) -> Result<(), Fail> {
    let control = Control {
        generation: 2,
        holds: 1,
    };
    equal(&rt, control.pack(), 0x0000_0000_0200_0001);
    equal(&rt, Control::unpack(0x0000_0000_0200_0001), control);
    let status = Status {
        generation: 1,
        phase: Phase::Crossed { line: 0 },
    };
    equal(&rt, status.pack(), 0x0000_0000_0100_0300);
    equal(&rt, Status::unpack(0x0000_0000_0100_0300), status);
    let owner = Owner {
        caller: 1,
        mode: Mode::All,
        lines: 2,
        number: 5,
    };
    equal(&rt, owner.pack(), 0x0602_0000_0000_0005);
    equal(&rt, Owner::unpack(0x0602_0000_0000_0005), owner);
    let first = First {
        put: true,
        version: 3,
        before: 7,
    };
    equal(&rt, first.pack(), 0x8000_0003_0000_0007);
    equal(&rt, First::unpack(0x8000_0003_0000_0007), first);
    let second = Second { loc: 2, after: 9 };
    equal(&rt, second.pack(), 0x0000_0002_0000_0009);
    equal(&rt, Second::unpack(0x0000_0002_0000_0009), second);
    Ok(())
}
