/// The offsets of the script from `from` up to, but not including, `to`.
#[derive(Clone, Copy)]
pub struct ScriptLooks {
    pub(crate) from: usize,
    pub(crate) to: usize,
}
