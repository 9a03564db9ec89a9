//! What comes out of a queue of buckets.
use std::test::Fail;
use surf_buckets::{Buckets, LentBuckets};

#[test]
fn the_nearest_comes_out_first(rt: HostRuntime) -> Result<(), Fail> {
    let mut buckets = Buckets::make(rt.alloc(), 4).ok().ok_or("room")?;
    buckets.offer(2, 5);
    buckets.offer(1, 4095);
    buckets.offer(2, 7);
    buckets.offer(2, 3);
    assert_eq!(rt; buckets.take_least(), Some((2, 3)));
    buckets.offer(3, 4098);
    buckets.offer(0, 4098);
    buckets.offer(0, 4096);
    assert_eq!(rt; buckets.take_least(), Some((1, 4095)));
    assert_eq!(rt; buckets.take_least(), Some((0, 4096)));
    assert_eq!(rt; buckets.take_least(), Some((3, 4098)));
    assert_eq!(rt; buckets.take_least(), None);
    Ok(())
}

#[test]
fn a_cleared_queue_holds_nothing(rt: HostRuntime) -> Result<(), Fail> {
    let mut buckets = Buckets::make(rt.alloc(), 3).ok().ok_or("room")?;
    buckets.offer(0, 9);
    buckets.offer(1, 9);
    assert_eq!(rt; buckets.take_least().is_some(), true);
    buckets.clear();
    assert_eq!(rt; buckets.take_least(), None);
    buckets.offer(1, 2);
    assert_eq!(rt; buckets.take_least(), Some((1, 2)));
    Ok(())
}

#[test]
fn a_place_that_was_taken_keeps_its_key(rt: HostRuntime) -> Result<(), Fail> {
    let mut keys = [0u64; 4];
    let mut buckets = LentBuckets::make(rt.alloc(), 4).ok().ok_or("room")?;
    buckets.start(&mut keys);
    buckets.offer(&mut keys, 2, 5);
    buckets.offer(&mut keys, 1, 4095);
    buckets.offer(&mut keys, 2, 3);
    assert_eq!(rt; buckets.take_least(), Some((2, 3)));
    assert_eq!(rt; buckets.take_least(), Some((1, 4095)));
    assert_eq!(rt; buckets.take_least(), None);
    assert_eq!(rt; keys, [u64::MAX, 4095, 3, u64::MAX]);
    Ok(())
}
