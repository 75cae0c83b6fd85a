use hostfiles::Ask;

/// A question of a run to its session.
#[derive(Clone, Copy)]
pub enum Question {
    /// The byte of a cell of the loaded memory.
    Cell(u16),
    /// The byte at an offset of the script, or that there is none.
    Script(usize),
    /// A question to the host files.
    Host(Ask),
}
