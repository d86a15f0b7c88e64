//! The lock as its callers see it, and that it may cross threads.
use file_lock::LockTable;
use store_traits::{CallId, ClientId, NodeId};

fn call(node: u32, client: u32, number: u32) -> CallId {
    CallId {
        node: NodeId(node),
        client: ClientId(client),
        number,
    }
}

#[test]
fn one_call_owns_the_lock(rt: HostRuntime) {
    let first = call(1, 2, 1);
    let mut table = LockTable::new();
    assert!(rt; table.try_lock(first));
    assert!(rt; table.try_lock(first));
    for other in [call(1, 2, 2), call(1, 3, 1), call(2, 2, 1)] {
        assert!(rt; !table.try_lock(other));
    }
    table.free_node(NodeId(2));
    assert_eq!(rt; table.owner(), Some(first));
    table.free_node(NodeId(1));
    assert_eq!(rt; table.owner(), None);
}

#[test]
fn a_released_lock_is_free(rt: HostRuntime) {
    let mut table = LockTable::new();
    let first = call(1, 2, 1);
    if table.try_lock(first) {
        table.release(first);
    }
    assert!(rt; table.try_lock(call(2, 2, 1)));
}

fn is_shared_by_threads<T: Send + Sync>() {}

#[test]
fn a_lock_crosses_threads() {
    is_shared_by_threads::<LockTable>();
}
