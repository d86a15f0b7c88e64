ghost use Rattle.std.specs.Prelude.{◌≡◌, ◌++◌, string_bytes, OnOk};
ghost use Rattle.prefs_text.specs.Callers.{HasNode, HasCaller, node_name, caller_name, call_text};

use crate::Names;
use crate::numbers::push_number;
use std::alloc::AllocError;
use store_traits::{CallId, ClientId, NodeId};

/// Appends the call: its caller's name, a space, and its number.
pub(crate) fn push_call(out: &mut String, names: &Names, call: CallId) -> Result<(), AllocError>
    requires { HasCaller names.now call.client }
    ensures { OnOk result (string_bytes out.new ≡ string_bytes out.old ++ call_text names.now call) }
{
    push_caller(out, names, call.client)?;
    out.push_str(" ")?;
    push_number(out, u64::from(call.number))
}

// An actor's name is that of its node, behind an `@`.
fn push_caller(out: &mut String, names: &Names, client: ClientId) -> Result<(), AllocError>
    requires { HasCaller names.now client }
    ensures { OnOk result (string_bytes out.new ≡ string_bytes out.old ++ caller_name names.now client) }
{
    let clients = names.clients.names();
    let place = client.0 as usize;
    if place < clients.len() {
        return out.push_str(clients[place].as_str());
    }
    let nodes = names.nodes.names();
    out.push_str("@")?;
    out.push_str(nodes[place - clients.len()].as_str())
}

/// Appends the node's name.
pub(crate) fn push_node(out: &mut String, names: &Names, node: NodeId) -> Result<(), AllocError>
    requires { HasNode names.now node }
    ensures { OnOk result (string_bytes out.new ≡ string_bytes out.old ++ node_name names.now node) }
{
    out.push_str(names.nodes.names()[node.0 as usize].as_str())
}
