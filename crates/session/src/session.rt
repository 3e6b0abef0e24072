use machine::program::Program;

/// Holds one program.
#[derive(Drop)]
pub struct Session {
    pub(crate) program: Program,
}
