//! Sides that are grouped by a key.
use std::test::Fail;
use surf_base::SideId;
use surf_rows::group_sides;

// Four sides by three keys.
#[test]
fn sides_stand_by_their_keys(rt: HostRuntime) -> Result<(), Fail> {
    let order = [
        SideId::new(0),
        SideId::new(1),
        SideId::new(2),
        SideId::new(3),
    ];
    let rows = group_sides(rt.alloc(), &order, &[2, 0, 2, 1], 3)
        .ok()
        .ok_or("room")?;
    assert_eq!(rt; rows.len(), 3);
    assert_eq!(rt; rows.items().len(), 4);
    assert_eq!(rt; rows.row(2).len(), 2);
    assert_eq!(rt; rows.row(0)[0], SideId::new(1));
    Ok(())
}
