// The listing by both planners.
use crate::pair::{Pair, UNTOUCHED, begun_with};
use crate::reply::of_fault;
use costs::cost::Cost;
use response::test::ResponseTest;
use second::reply::Reply;

impl<T: ResponseTest + Drop, C: Cost + Drop> Pair<'_, T, C> {
    // Compares the listings in a buffer of some size.
    pub fn list(&self, size: usize) -> anyhow::Result<()> {
        let heap = self.rt.alloc();
        let mut buffer = vec![in heap; UNTOUCHED; size]?;
        let first = self.first.listing(&mut buffer).map_or_else(
            of_fault,
            |count| Reply::Listed {
                bytes: count as u64,
            },
        );
        let (second, text) = match self.second.listing(size) {
            Ok(text) => (
                Reply::Listed {
                    bytes: text.len() as u64,
                },
                text,
            ),
            Err(failure) => (failure.refusal()?.into(), String::new(heap)),
        };
        let expected = begun_with(heap, text.as_bytes(), size)?;
        if first != second || buffer != expected {
            self.differ("listing", &(first, buffer), &(second, expected))?;
        }
        Ok(())
    }
}
