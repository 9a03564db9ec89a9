//! What comes out of a heap, and in which order.
use std::test::Fail;
use surf_heap::Heap;

#[test]
fn the_least_comes_out_first(rt: HostRuntime) -> Result<(), Fail> {
    let mut heap = Heap::make(rt.alloc(), 4).ok().ok_or("room")?;
    heap.offer(2, 5, 0);
    heap.offer(1, 5, 0);
    heap.offer(2, 5, 1);
    heap.offer(2, 3, 9);
    assert_eq!(rt; heap.take_least(), Some((2, 3, 9)));
    assert_eq!(rt; heap.take_least(), Some((1, 5, 0)));
    assert_eq!(rt; heap.take_least(), None);
    Ok(())
}

#[test]
fn equal_keys_go_by_tie_and_place(rt: HostRuntime) -> Result<(), Fail> {
    let mut heap = Heap::make(rt.alloc(), 4).ok().ok_or("room")?;
    heap.offer(3, 7, 1);
    heap.offer(0, 7, 2);
    heap.offer(1, 7, 1);
    assert_eq!(rt; heap.take_least(), Some((1, 7, 1)));
    assert_eq!(rt; heap.take_least(), Some((3, 7, 1)));
    heap.clear();
    assert_eq!(rt; heap.take_least(), None);
    Ok(())
}
