//! Sets of tasks in use: printed, gone over, asked, changed, compared, and as keys of a set of sets.
use line_instance::TaskSet;
use std::collections::HashSet;
use std::test::Fail;

#[test]
fn prints_the_members(rt: HostRuntime) -> Result<(), Fail> {
    let set = TaskSet::from_members(&[17, 3, 0, 1023, 3]);
    let text = format!(in rt.alloc(); "{set} {set:?} {}", TaskSet::empty())?;
    assert_eq!(rt; text.as_str(), "{0, 3, 17, 1023} {0, 3, 17, 1023} {}");
    Ok(())
}

#[test]
fn goes_over_the_members(rt: HostRuntime) -> Result<(), Fail> {
    let set = TaskSet::from_members(&[700, 63, 64, 5]);
    let members: Vec<u32> = set.iter().collect(rt.alloc())?;
    let mut last = 0;
    for i in &set {
        last = i;
    }
    let right = (members.as_slice() == [5, 63, 64, 700].as_slice()) & (last == 700);
    assert!(rt; right);
    Ok(())
}

#[test]
fn finds_members(rt: HostRuntime) -> Result<(), Fail> {
    let set = TaskSet::from_members(&[5, 63, 64, 700]);
    let members = set.has(63) & !set.has(62) & (set.count() == 4) & (set.capacity() == 1024);
    let least = (set.least() == Some(5)) & TaskSet::empty().least().is_none();
    let below = (set.greatest_below(1024) == Some(700))
        & (set.greatest_below(64) == Some(63))
        & set.greatest_below(5).is_none();
    assert_eq!(rt; (members, least, below), (true, true, true));
    Ok(())
}

#[test]
fn changes_sets(rt: HostRuntime) -> Result<(), Fail> {
    let mut set = TaskSet::full_to(3);
    let changed = !set.insert(2) & set.insert(1000) & set.remove(0) & !set.remove(0);
    let is_left = set == TaskSet::from_members(&[1, 2, 1000]);
    let is_back = set.with(0).without(1000) == TaskSet::full_to(3);
    assert_eq!(rt; (changed, is_left, is_back), (true, true, true));
    Ok(())
}

#[test]
fn joins_sets(rt: HostRuntime) -> Result<(), Fail> {
    let (a, b) = (
        TaskSet::from_members(&[1, 2, 130]),
        TaskSet::from_members(&[2, 900]),
    );
    let joined = (a.union(&b) == TaskSet::from_members(&[1, 2, 130, 900]))
        & (a.minus(&b) == TaskSet::from_members(&[1, 130]))
        & (a.meet(&b) == TaskSet::from_members(&[2]));
    let within = a.meet(&b).is_subset(&a) & !a.is_subset(&b) & a.minus(&a).is_empty();
    assert_eq!(rt; (joined, within), (true, true));
    Ok(())
}

#[test]
fn hashes_equal_sets_alike(rt: HostRuntime) -> Result<(), Fail> {
    let mut seen = HashSet::new(rt.alloc());
    seen.insert(TaskSet::full_to(300))?;
    let found = seen.contains(&TaskSet::full_to(299).with(299));
    assert!(rt; found & !seen.contains(&TaskSet::full_to(299)));
    Ok(())
}
