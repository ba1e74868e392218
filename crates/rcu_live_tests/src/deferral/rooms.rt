//! The room that a list of deferred values keeps.
ghost use Rattle.std.specs.Prelude.{◌≡◌};

use rcu_defer::DeferList;
use rcu_seq::Fault;
use std::ops::Range;
use std::process::Abort;

/// Defers a value, by a second call if the first is refused memory.
fn defers<R: Abort>(rt: &R, list: &mut DeferList<u64>, value: u64)
    ensures { list.new.marks.seen ≡ list.old.marks.seen }
{
    if let Err(refused) = list.defer(value) {
        assert_eq!(rt; (refused.fault, refused.value), (Fault::NoMemory, value));
        assert!(rt; list.defer(value).is_ok(), "the second call has memory");
    }
}

/// Defers the values from 0 to 8.
fn defers_nine<R: Abort>(rt: &R, list: &mut DeferList<u64>)
    ensures { list.new.marks.seen ≡ list.old.marks.seen }
{
    defers(rt, list, 0);
    defers(rt, list, 1);
    defers(rt, list, 2);
    defers(rt, list, 3);
    defers(rt, list, 4);
    defers(rt, list, 5);
    defers(rt, list, 6);
    defers(rt, list, 7);
    defers(rt, list, 8);
}

/// Takes out this many done values.
fn takes<R: Abort>(rt: &R, list: &mut DeferList<u64>, values: Range<u64>) {
    for value in values {
        assert_eq!(rt; list.take(), Some(value));
    }
}

/// Compares for how many values a list has room after it freed the rest, by a second call if the
/// first is refused the smaller block.
fn shrinks<R: Abort>(rt: &R, list: &mut DeferList<u64>, wanted: usize)
    ensures { list.new.marks ≡ list.old.marks }
{
    list.shrink();
    list.shrink();
    assert_eq!(rt; (list.count(), list.room()), (wanted, wanted));
}

/// A list with values keeps room for them alone, also if it has grown, and an empty one keeps none.
#[test]
fn a_list_of_values_gives_room_back(rt: HostRuntime) {
    let mut list = DeferList::new(rt.alloc());
    defers_nine(&rt, &mut list);
    shrinks(&rt, &mut list, 9);
    list.tend(0);
    list.tend(4);
    takes(&rt, &mut list, 0..4);
    shrinks(&rt, &mut list, 5);
    takes(&rt, &mut list, 4..9);
    shrinks(&rt, &mut list, 0);
}
