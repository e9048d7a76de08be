// A task graph: tasks with their names, times and sizes, and the edges between them, as a file has them.
#![tactic(auto)]

mod draft;
pub mod fault;
pub mod graph;
pub mod name;
pub mod types;

pub use edges::Edge;
pub use fault::{GraphFault, NameFault};
pub use graph::Graph;
pub use name::name_of;
pub use types::{Name, Task};

#[cfg(test)]
mod tests {
    use super::*;
    use std::test::Fail;

    // One task, of time 4 and size 30.
    const FILE: &[u8] = b"\x01\x01\x00\x06ground\x04\x1e";

    #[test]
    fn copies_a_name(rt: HostRuntime) -> Result<(), Fail> {
        let mut graph = Graph::new(rt.alloc());
        graph.read(rt.alloc(), FILE)?;
        let names = graph.names().to_vec(rt.alloc())?;
        for name in &names {
            let Name { bytes, len } = *name;
            assert_eq!(rt; &bytes[..len], b"ground".as_slice());
        }
        assert_eq!(rt; names.len(), 1);
        Ok(())
    }

    #[test]
    fn clones_a_name(rt: HostRuntime) -> Result<(), Fail> {
        let mut graph = Graph::new(rt.alloc());
        graph.read(rt.alloc(), FILE)?;
        assert_eq!(rt; graph.names().len(), 1);
        for name in graph.names() {
            let copy = name.clone()?;
            assert_eq!(rt; copy.as_bytes(), b"ground".as_slice());
        }
        Ok(())
    }
}
