// Why a program is not printed.

/// The buffer is shorter than the bytes due.
#[derive(Clone, Copy, PartialEq, Eq, Debug)]
pub struct ShortBuffer {
    pub due: usize,
}
