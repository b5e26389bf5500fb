// The shadows of the open slots, in plain words.
use engine::{Engine, Shadow};
use script::Register;
use std::io;

// Slots are numbered below this.
pub(crate) const SLOTS: u32 = 8;

// A line for each shadow: its slot, whom it is for, and where it stands.
pub(crate) fn print_shadows(rt: &impl Print, engine: &Engine) -> io::Result<()> {
    for slot in 0..SLOTS {
        for other in 0..SLOTS {
            if let Some(shadow) = engine.shadow(slot, other) {
                print_shadow(rt, slot, other, &shadow)?;
            }
        }
    }
    Ok(())
}

fn print_shadow(rt: &impl Print, slot: u32, other: u32, shadow: &Shadow) -> io::Result<()> {
    if slot == other {
        print!(rt; "  slot {slot}, leading: ")?;
    } else {
        print!(rt; "  slot {slot}, for slot {other}: ")?;
    }
    print_registers(rt, shadow)?;
    print_list(rt, "read", shadow.reads(), |before, read| {
        print!(rt; "{before} page {} at step {}", read.page, read.step)
    })?;
    print_list(rt, "; wrote", shadow.own(), |before, write| {
        print!(rt; "{before} {} to page {}", write.word, write.page)
    })?;
    println!(rt; "")
}

fn print_registers(rt: &impl Print, shadow: &Shadow) -> io::Result<()> {
    print!(rt;
        "step {}; registers {} {} {} {}; ",
        shadow.step(),
        shadow.register(Register::R0),
        shadow.register(Register::R1),
        shadow.register(Register::R2),
        shadow.register(Register::R3)
    )
}

// What a shadow did: each item of the list, or nothing. An item is printed together with what stands before it, since each
// `print!` is a write of its own.
fn print_list<T, F: Fn(&str, &T) -> io::Result<()>>(
    rt: &impl Print,
    did: &str,
    items: &[T],
    print_item: F,
) -> io::Result<()>
    requires { F.IsAlwaysCallable print_item }
{
    let [first, rest @ ..] = items else {
        return print!(rt; "{did} nothing");
    };
    print_item(did, first)?;
    for item in rest {
        print_item(",", item)?;
    }
    Ok(())
}
