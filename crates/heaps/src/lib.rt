// A binary heap over a table that the caller lends, for every kind of entry whose order is total.
#![tactic(auto)]

mod entries;
mod full;
mod heap;
mod order;
mod sift;

pub use entries::{Line, Ready};
pub use full::HeapFull;
pub use heap::Heap;
pub use order::Ordered;

#[cfg(test)]
mod tests {
    use super::*;
    use faults::Refusal;

    // The task that comes next, or 99.
    fn next(heap: &mut Heap<Ready>) -> usize {
        heap.pop().map_or(99, |ready| ready.task)
    }

    #[test]
    fn pushes_and_pops(rt: HostRuntime) {
        let mut table = [Ready { rank: 0, task: 0 }; 3];
        let mut heap = Heap::over(&mut table);
        assert_eq!(rt; next(&mut heap), 99);
        assert!(rt; heap.push(Ready { rank: 3, task: 7 }).is_ok());
        assert!(rt; heap.push(Ready { rank: 5, task: 2 }).is_ok());
        assert!(rt; heap.push(Ready { rank: 5, task: 1 }).is_ok());
        match heap.push(Ready { rank: 9, task: 4 }) {
            Ok(()) => assert!(rt; false),
            Err(e) => assert_eq!(rt; e.fault().place, 4),
        }
        assert_eq!(rt; next(&mut heap), 1);
        assert_eq!(rt; next(&mut heap), 2);
        assert_eq!(rt; next(&mut heap), 7);
        assert_eq!(rt; next(&mut heap), 99);
        assert_eq!(rt; heap.len(), 0);
    }
}
