// Each expected answer was worked out by hand from the layouts that docs/PAGES.md and docs/SCRIPTS.md state.
use basics::Refusal;
use pages::{Flat, Log, Reader, Store, StoreFault};
use script::{ScriptFault, decode};
use std::process::Abort;
use std::test::Fail;

// One page, room for one entry, which is used and names page 0: its word hides the base word until a put carries it.
#[test]
fn full_log_carries_its_entry(rt: HostRuntime) {
    let mut words = [1, 1, 1, 5, 0, 9];
    let mut log = Log::new(&mut words);
    assert_eq!(rt; log.size(), 1);
    assert_eq!(rt; log.read(0), Ok(9));
    assert_eq!(rt; log.put(0, 7), Ok(()));
    assert_eq!(rt; log.read(0), Ok(7));
    assert_eq!(rt; words, [1, 1, 1, 9, 0, 7]);
}

#[test]
fn flat_pages_end_at_the_size(rt: HostRuntime) {
    let mut words = [10, 20, 30];
    let flat = Flat::new(&mut words);
    assert_eq!(rt; flat.size(), 3);
    assert_eq!(rt; flat.read(2), Ok(30));
    assert_eq!(rt; flat.read(3), Err(StoreFault { page: 3 }));
}

// A set takes any operand, so bytes of 0x40 after the size are sets.
#[test]
fn sixteen_steps_are_the_most(rt: HostRuntime) -> Result<(), Fail> {
    let mut sixteen = [0x40; 81];
    sixteen[0] = 16;
    assert_eq!(rt; decode(&sixteen)?.len(), 16);
    let mut seventeen = [0x40; 86];
    seventeen[0] = 17;
    assert_eq!(rt; decode(&seventeen).err(), Some(ScriptFault::Unfit(86)));
    assert_eq!(rt; decode(&[]).err(), Some(ScriptFault::Unfit(0)));
    Ok(())
}

// The first of sixteen steps may leave out all others, and no step may leave out sixteen.
#[test]
fn fifteen_is_the_furthest_skip(rt: HostRuntime) -> Result<(), Fail> {
    let mut bytes = [0; 81];
    bytes[0] = 16;
    bytes[1] = 0x60;
    bytes[20] = 15;
    assert_eq!(rt; decode(&bytes)?.len(), 16);
    bytes[20] = 16;
    assert_eq!(rt; decode(&bytes).err(), Some(ScriptFault::Undefined(0)));
    Ok(())
}

#[test]
fn skip_needs_a_step_to_leave_out(rt: HostRuntime) -> Result<(), Fail> {
    assert_eq!(rt; decode(&[2, 0x60, 0x40, 0, 0, 0, 1, 0, 0, 0, 0])?.len(), 2);
    assert_eq!(rt;
        decode(&[1, 0x60, 0, 0, 0, 1]).err(),
        Some(ScriptFault::Undefined(0))
    );
    Ok(())
}

// Bytes, and the number and value that refuse them; none where they are a script.
#[derive(Drop)]
struct Case {
    bytes: &'static [u8],
    told: Option<(u32, usize)>,
}

fn accepted(bytes: &'static [u8]) -> Case {
    Case { bytes, told: None }
}

fn refused(bytes: &'static [u8], number: u32, value: usize) -> Case {
    Case {
        bytes,
        told: Some((number, value)),
    }
}

// Each case is decoded, or refused, as it says.
fn check_all(rt: &impl Abort, cases: &[Case]) -> Result<(), Fail> {
    for case in cases {
        match decode(case.bytes) {
            Ok(_) => assert_eq!(rt; None, case.told),
            Err(fault) => {
                let value = fault
                    .value(0)
                    .ok_or("a refusal of a script returns one value")?;
                assert_eq!(rt; Some((fault.number(), value)), case.told);
                assert_eq!(rt; fault.value(1), None);
            }
        }
    }
    Ok(())
}

#[test]
fn scripts_of_wrong_length(rt: HostRuntime) -> Result<(), Fail> {
    let cases = [
        // no bytes; a size of 0 or above 16
        refused(&[], 5, 0),
        refused(&[0], 5, 1),
        refused(&[17], 5, 1),
        refused(&[0, 0x40, 0, 0, 0, 0], 5, 6),
        refused(&[17, 0x40, 0, 0, 0, 0], 5, 6),
        // a length that is not 1 + 5n
        refused(&[1], 5, 1),
        refused(&[1, 0x40, 0, 0, 0], 5, 5),
        refused(&[1, 0x40, 0, 0, 0, 0, 0], 5, 7),
        refused(&[2, 0x40, 0, 0, 0, 0], 5, 6),
        refused(&[2, 0x40, 0x40, 0, 0, 0, 0, 0, 0, 0], 5, 10),
        refused(&[2, 0x40, 0x40, 0, 0, 0, 0, 0, 0, 0, 0, 0], 5, 12),
        // an undefined step is of no account where the length is wrong
        refused(&[1, 0xf0, 0, 0, 0], 5, 5),
    ];
    check_all(&rt, &cases)
}

#[test]
fn undefined_actions(rt: HostRuntime) -> Result<(), Fail> {
    let cases = [
        // actions 7 to 15
        refused(&[1, 0x70, 0, 0, 0, 0], 6, 0),
        refused(&[1, 0x80, 0, 0, 0, 0], 6, 0),
        refused(&[1, 0x90, 0, 0, 0, 0], 6, 0),
        refused(&[1, 0xa0, 0, 0, 0, 0], 6, 0),
        refused(&[1, 0xb0, 0, 0, 0, 0], 6, 0),
        refused(&[1, 0xc0, 0, 0, 0, 0], 6, 0),
        refused(&[1, 0xd0, 0, 0, 0, 0], 6, 0),
        refused(&[1, 0xe0, 0, 0, 0, 0], 6, 0),
        refused(&[1, 0xf0, 0, 0, 0, 0], 6, 0),
    ];
    check_all(&rt, &cases)
}

#[test]
fn bounds_of_combine_and_skip(rt: HostRuntime) -> Result<(), Fail> {
    let cases = [
        // combine: operation 2, operation 3, and operation 2 with its bytes the wrong way round
        accepted(&[1, 0x51, 0, 0, 0, 2]),
        refused(&[1, 0x51, 0, 0, 0, 3], 6, 0),
        refused(&[1, 0x51, 2, 0, 0, 0], 6, 0),
        // skip 0, 1, 15 and 16
        refused(&[2, 0x60, 0x40, 0, 0, 0, 0, 0, 0, 0, 0], 6, 0),
        accepted(&[2, 0x60, 0x40, 0, 0, 0, 1, 0, 0, 0, 0]),
        refused(&[1, 0x60, 0, 0, 0, 15], 6, 0),
        refused(&[1, 0x60, 0, 0, 0, 16], 6, 0),
        // a skip that ends at n, and one that ends at n + 1
        accepted(&[3, 0x60, 0x40, 0x40, 0, 0, 0, 2, 0, 0, 0, 0, 0, 0, 0, 0]),
        refused(
            &[3, 0x60, 0x40, 0x40, 0, 0, 0, 3, 0, 0, 0, 0, 0, 0, 0, 0],
            6,
            0,
        ),
        accepted(&[3, 0x40, 0x60, 0x40, 0, 0, 0, 0, 0, 0, 0, 1, 0, 0, 0, 0]),
        refused(
            &[3, 0x40, 0x60, 0x40, 0, 0, 0, 0, 0, 0, 0, 2, 0, 0, 0, 0],
            6,
            1,
        ),
    ];
    check_all(&rt, &cases)
}

#[test]
fn bits_of_no_register(rt: HostRuntime) -> Result<(), Fail> {
    let cases = [
        // bits of register b where an action has none
        refused(&[1, 0x01, 0, 0, 0, 0], 6, 0),
        refused(&[1, 0x02, 0, 0, 0, 0], 6, 0),
        refused(&[1, 0x03, 0, 0, 0, 0], 6, 0),
        refused(&[1, 0x21, 0, 0, 0, 0], 6, 0),
        refused(&[1, 0x22, 0, 0, 0, 0], 6, 0),
        refused(&[1, 0x23, 0, 0, 0, 0], 6, 0),
        refused(&[1, 0x41, 0, 0, 0, 0], 6, 0),
        refused(&[1, 0x42, 0, 0, 0, 0], 6, 0),
        refused(&[1, 0x43, 0, 0, 0, 0], 6, 0),
    ];
    check_all(&rt, &cases)
}

#[test]
fn the_first_undefined_step_is_told(rt: HostRuntime) -> Result<(), Fail> {
    let cases = [
        // an undefined step in the first, the middle and the last place; the first of two is told
        refused(
            &[3, 0x70, 0x40, 0x40, 0, 0, 0, 0, 0, 0, 0, 0, 0, 0, 0, 0],
            6,
            0,
        ),
        refused(
            &[3, 0x40, 0x70, 0x40, 0, 0, 0, 0, 0, 0, 0, 0, 0, 0, 0, 0],
            6,
            1,
        ),
        refused(
            &[3, 0x40, 0x40, 0x70, 0, 0, 0, 0, 0, 0, 0, 0, 0, 0, 0, 0],
            6,
            2,
        ),
        refused(
            &[3, 0x40, 0x41, 0xf0, 0, 0, 0, 0, 0, 0, 0, 0, 0, 0, 0, 0],
            6,
            1,
        ),
    ];
    check_all(&rt, &cases)
}
