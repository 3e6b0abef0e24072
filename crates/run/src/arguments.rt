// What one argument asks for.

/// An argument after the file's name.
#[derive(Clone, Copy)]
pub enum Argument {
    /// At most so many steps.
    Budget(u32),
    /// A cell's word before the run.
    Cell(CellWord),
    /// The next word of the inputs.
    Input(u32),
}

/// A cell and the word in it.
#[derive(Clone, Copy)]
pub struct CellWord {
    pub cell: usize,
    pub word: u32,
}
