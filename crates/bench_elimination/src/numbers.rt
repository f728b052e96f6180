// A list of numbers that is read from its front.

#[derive(Drop)]
pub(crate) struct Numbers {
    pub list: Vec<i128>,
    pub at: usize,
}

impl Numbers {
    /// The next number, or 0 where there is none.
    pub fn next(&mut self) -> i128 {
        let at = self.at;
        if at >= self.list.len() {
            return 0;
        }
        self.at = at + 1;
        self.list[at]
    }

    /// The next number where it can be a count, and else 0.
    pub fn next_count(&mut self) -> usize {
        let n = self.next();
        if 0 <= n && n <= 1_000_000 {
            n as usize
        } else {
            0
        }
    }
}
