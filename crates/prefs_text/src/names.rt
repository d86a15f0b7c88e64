use crate::NameList;

/// The names of those who take part in a run. The node at place k of its list, counted from 0, has the `NodeId` k, and
/// the client at place k the `ClientId` k. The actor of node k has the `ClientId` k + n, where n is the number of clients.
#[derive(Drop)]
pub struct Names {
    pub nodes: NameList,
    pub clients: NameList,
}
