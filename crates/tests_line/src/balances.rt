//! What no clause says: small balances with their answers, and that lists of entries and of frames are copied.
use line_instance::{Instance, Made, Prec, TaskSet};
use line_rules::{
    Balance, BalanceCheck, BoxedSet, Cites, Entries, Entry, Frames, LineKind, Load, Mode,
    OpenFrame, Places, Seatplace, Side, Why, check_balance,
};
use std::test::Fail;

fn good(made: Made) -> Result<Instance, Fail> {
    match made {
        Made::Good(inst) => Ok(inst),
        _ => Err("no instance")?,
    }
}

fn front(station: u32) -> Seatplace {
    Seatplace {
        station,
        side: Side::Front,
    }
}

fn back(station: u32) -> Seatplace {
    Seatplace {
        station,
        side: Side::Back,
    }
}

fn checked(
    inst: &Instance,
    kind: LineKind,
    cycle: u64,
    balance: &Balance,
) -> Result<BalanceCheck, Fail> {
    let few = balance.place.len() <= inst.tasks() as usize;
    if few && balance.stations <= 1024 {
        return Ok(check_balance(inst, kind, cycle, balance));
    }
    Err("too many places")?
}

#[test]
fn finds_the_broken_pair_of_a_chain(rt: HostRuntime) -> Result<(), Fail> {
    let alloc = rt.alloc();
    let arcs = [
        Prec { first: 0, then: 1 },
        Prec { first: 1, then: 2 },
        Prec { first: 2, then: 3 },
    ];
    let chain = good(line_instance::make(alloc, vec![in alloc; 1, 1, 1, 1]?, &arcs))?;
    let places = vec![in alloc; front(2), back(1), front(1), back(2)]?;
    let balance = Balance {
        stations: 2,
        place: Places::from_vec(places),
    };
    let u = checked(&chain, LineKind::U, 2, &balance)?;
    let straight = checked(&chain, LineKind::Straight, 2, &balance)?;
    assert!(rt; (u == BalanceCheck::Broken(0, 2)) & (straight == BalanceCheck::SideWrong(1)));
    Ok(())
}

#[test]
fn tests_two_tasks_that_are_apart(rt: HostRuntime) -> Result<(), Fail> {
    let alloc = rt.alloc();
    let mut two = good(line_instance::make(alloc, vec![in alloc; 1, 1]?, &[]))?;
    let together = Balance {
        stations: 1,
        place: Places::from_vec(vec![in alloc; front(1), front(1)]?),
    };
    let wide = checked(&two, LineKind::Straight, 2, &together)?;
    let narrow = checked(&two, LineKind::Straight, 1, &together)?;
    if two.tasks() != 2 {
        return Err("other tasks")?;
    }
    two.set_apart(&[Prec { first: 1, then: 0 }]);
    let apart = checked(&two, LineKind::Straight, 2, &together)?;
    let before = (wide == BalanceCheck::Right) & (narrow == BalanceCheck::Overfull(1, 2));
    assert!(rt; before & (apart == BalanceCheck::Together(0, 1)));
    Ok(())
}

#[test]
fn copies_entries(rt: HostRuntime) -> Result<(), Fail> {
    let alloc = rt.alloc();
    let mut entries = Entries::from_vec(Vec::new(alloc));
    entries.push(Entry {
        set: TaskSet::full_to(6),
        most: 3,
        cycle: 7,
        why: Why::Branch {
            mode: Mode::Fore,
            cites: Cites::from_vec(vec![in alloc; 4, 0]?),
        },
    })?;
    let copied = entries.copy()?;
    let Why::Branch { mode, cites } = &copied.at(0).why else {
        return Err("another reason")?;
    };
    assert!(rt; (*mode == Mode::Fore) & (cites.as_slice() == [4, 0].as_slice()));
    Ok(())
}

#[test]
fn copies_an_entry_by_pairs(rt: HostRuntime) -> Result<(), Fail> {
    let alloc = rt.alloc();
    let two = TaskSet::from_members(&[0, 2]);
    let entry = Entry {
        set: TaskSet::full_to(4),
        most: 2,
        cycle: 20,
        why: Why::Pairs {
            two: BoxedSet::new(alloc, &two)?,
        },
    };
    let copied = entry.copy()?;
    let Why::Pairs { two: again } = &copied.why else {
        return Err("another reason")?;
    };
    assert!(rt; *again.set() == two);
    Ok(())
}

#[test]
fn copies_frames(rt: HostRuntime) -> Result<(), Fail> {
    let alloc = rt.alloc();
    let frame = OpenFrame {
        set: TaskSet::full_to(5),
        most: 2,
        mode: Mode::Fore,
        last: Some(Load {
            front: TaskSet::from_members(&[0, 3]),
            back: TaskSet::empty(),
        }),
        cites: Cites::from_vec(Vec::new(alloc)),
    };
    let frames = Frames::from_vec(vec![in alloc; frame]?);
    let again = frames.copy()?;
    let copy = again.at(0);
    let Some(load) = copy.last else {
        return Err("no load")?;
    };
    assert!(rt; (again.len() == 1) & (copy.most == 2) & copy.cites.is_empty() & load.front.has(3));
    Ok(())
}
