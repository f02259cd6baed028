// Each call of a session for a command, on its way to an answer.
use super::again::{reg, slot, zone};
use gz_names::{CompNo, Name, WeakNo};
use slice_driver::{Compacted, Session, SessionFault};
use std::test::Fail;
use sweeping::MainSweeper;

// Makes a compartment in each of two zones, and in the first one an object with a field and a map.
fn make(session: &mut Session<MainSweeper>) -> Result<(CompNo, u64, u64), SessionFault> {
    let (first, second) = (session.new_zone()?, session.new_zone()?);
    let here = session.new_compartment(first)?;
    let there = session.new_compartment(second)?;
    let object = session.new_object(reg(0), here, 1)?;
    let map = session.new_map(reg(1), here)?;
    Ok((there, object, map))
}

// The field of the object names the map, and the second compartment has a wrapper of the object.
fn name(
    session: &mut Session<MainSweeper>,
) -> Result<(Option<Name>, Option<Name>, Name, Name), SessionFault> {
    let empty = session.get(reg(2), reg(0), 0)?;
    session.set(reg(0), 0, Some(reg(1)))?;
    let field = session.get(reg(2), reg(0), 0)?;
    let wrapper = session.wrap(reg(3), reg(0), CompNo(1))?;
    let target = session.unwrap(reg(4), reg(3))?;
    Ok((empty, field, wrapper, target))
}

// A gray slot holds the object for a while.
fn hold(session: &mut Session<MainSweeper>) -> Result<(Option<Name>, Option<Name>), SessionFault> {
    session.copy(reg(5), reg(0))?;
    session.hold(slot(0), reg(5))?;
    session.drop_register(reg(5))?;
    let held = session.expose(reg(5), slot(0))?;
    session.release(slot(0))?;
    Ok((held, session.expose(reg(5), slot(0))?))
}

// The map has an entry of the object for a while.
fn enter(
    session: &mut Session<MainSweeper>,
) -> Result<(Option<Name>, bool, bool, Option<Name>), SessionFault> {
    session.put(reg(1), reg(0), reg(1))?;
    let value = session.find(reg(5), reg(1), reg(0))?;
    let (was, is) = (
        session.delete(reg(1), reg(0))?,
        session.delete(reg(1), reg(0))?,
    );
    Ok((value, was, is, session.find(reg(5), reg(1), reg(0))?))
}

// A weak slot names the object, which is watched for a while.
fn name_weakly(
    session: &mut Session<MainSweeper>,
) -> Result<(Option<Name>, bool, bool), SessionFault> {
    let weak_slot = WeakNo::new(63).unwrap();
    session.weaken(weak_slot, reg(0));
    let named = session.deref(reg(5), weak_slot);
    session.watch(reg(5))?;
    Ok((named, session.unwatch(reg(0))?, session.unwatch(reg(0))?))
}

#[test]
fn each_call_returns_what_its_command_answers(rt: HostRuntime) -> Result<(), Fail> {
    let mut session = Session::new(rt.alloc())?;
    let made = make(&mut session);
    let named = name(&mut session);
    let held = hold(&mut session);
    let entered = enter(&mut session);
    let weakly_named = name_weakly(&mut session);
    let packed = session.compact(zone(0));
    drop(session);
    let (object, map) = (Name::Cell(0), Name::Cell(1));
    assert_eq!(rt; made, Ok((CompNo(1), 0, 1)));
    assert_eq!(rt;
        named,
        Ok((None, Some(map), Name::Wrap(CompNo(1), 0), object))
    );
    assert_eq!(rt; held, Ok((Some(object), None)));
    assert_eq!(rt; entered, Ok((Some(map), true, false, None)));
    assert_eq!(rt; weakly_named, Ok((Some(object), true, false)));
    assert_eq!(rt;
        packed,
        Ok(Compacted {
            moved: 0,
            given_up: 0
        })
    );
    Ok(())
}
