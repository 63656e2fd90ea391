use plain_data::{Items, Memory};
use std::alloc::Global;

fn three(alloc: Global) -> Result<Items<u32>, Memory> {
    let mut list = Items::new(alloc);
    list.push(3)?;
    list.push(5)?;
    list.push(8)?;
    Ok(list)
}

#[test]
fn items_stand_in_order(rt: HostRuntime) {
    assert!(rt; Items::<u32>::new(rt.alloc()).is_empty());
    let Ok(mut list) = three(rt.alloc()) else {
        panic!(rt; "out of memory");
    };
    assert!(rt; list.len() == 3);
    assert!(rt; *list.item(1) == 5);
    assert!(rt; list.replace(1, 13) == 5);
    *list.item_mut(0) = 21;
    assert!(rt; list.as_slice() == [21, 13, 8].as_slice());
}

#[test]
fn items_are_taken_back(rt: HostRuntime) {
    let Ok(mut list) = three(rt.alloc()) else {
        panic!(rt; "out of memory");
    };
    assert!(rt; list.pop() == Some(8));
    let vec = list.into_vec();
    assert!(rt; vec.as_slice() == [3, 5].as_slice());
    assert!(rt; Items::from_vec(vec).len() == 2);
}
