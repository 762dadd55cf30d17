// Things counted, and kept while there is room: the accesses of an operation, the bytes that it overwrites.
ghost use Rattle.std.specs.Prelude.{◌≡◌, length, min, take};
ghost use Rattle.common.specs.Fill.{none, pushed};

#[derive(Clone, Copy)]
pub struct Counted<T, const N: usize> {
    pub count: u8,
    pub items: [T; N],
}

impl<T: Copy, const N: usize> Counted<T, N> {
    // Nothing yet; `blank` stands in the places not used.
    pub fn none(blank: T) -> Counted<T, N>
        ensures { result ≡ none N blank }
    {
        Counted {
            count: 0,
            items: [blank; N],
        }
    }

    // The count always steps, so a count of at most N says that nothing was lost.
    pub fn push(self, item: T) -> Counted<T, N>
        ensures { result ≡ pushed N self item }
    {
        let mut out = self;
        let n = self.count as usize;
        if n < N {
            out.items[n] = item;
        }
        out.count = self.count.wrapping_add(1);
        out
    }

    // What is kept.
    pub fn held(&self) -> &[T]
        ensures what { result.now ≡ take (min self.now.count N) self.now.items }
        ensures many { length result.now ≡ min self.now.count N }
    {
        &self.items[..(self.count as usize).min(N)]
    }
}
