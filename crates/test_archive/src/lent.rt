// Memory of which the first bytes are lent to a call; those behind stay as they are. It is lent itself, as a slice: no part of an array
// whose length is a parameter can be lent for writing (the borrow checker does not cover it).

#[derive(Drop)]
pub(crate) struct Lent<'a> {
    memory: &'a mut [u8],
    asked: usize,
}

impl<'a> Lent<'a> {
    pub(crate) fn new(memory: &'a mut [u8]) -> Lent<'a> {
        Lent { memory, asked: 0 }
    }

    pub(crate) fn lend(&mut self, n: usize) {
        self.asked = n;
    }

    // As many bytes as are asked for, or as there are.
    pub(crate) fn bytes(&self) -> &[u8] {
        &self.memory[..self.asked.min(self.memory.len())]
    }

    pub(crate) fn bytes_mut(&mut self) -> &mut [u8] {
        let n = self.asked.min(self.memory.len());
        &mut self.memory[..n]
    }

    // Takes over the bytes of another of the same size, of which n are lent.
    pub(crate) fn hold(&mut self, other: &Lent, n: usize) {
        byte_rows::copy(other.memory, self.memory, 0);
        self.asked = n;
    }
}
