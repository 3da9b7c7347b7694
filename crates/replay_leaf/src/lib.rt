// The byte and the name of a window of one event, out of the event's tag and of the counts and the one edge of the window's small graph.
#![tactic(auto)]

ghost use Rattle.std.specs.Prelude.{◌≡◌, ◌<◌};
ghost use Rattle.replay_leaf.specs.Leaf.{byte_by, name_by};

// Internal: the byte of a window of one event: by the event's tag, and for a query by the nodes and the edges of the window's small graph.
pub fn byte_of(tag: u32, nodes: usize, edges: usize) -> u8
    ensures { result ≡ byte_by tag nodes edges }
{
    if tag != 0 {
        return 3;
    }
    if nodes == 1 {
        return 2;
    }
    if edges == 0 {
        return 0;
    }
    1
}

// Internal: the name of a window of one event: that of the small graph's one edge where the byte is 1, else none.
pub fn name_of(byte: u8, name: u32) -> u16
    requires { byte ≡ 1 → name < 65536 }
    ensures { result ≡ name_by byte name }
{
    if byte == 1 {
        return name as u16;
    }
    65535
}
