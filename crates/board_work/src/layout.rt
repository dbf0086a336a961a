/// What the words of a board keep of what is written: the value of each record, or a version for each record of each writer.
#[derive(Clone, Copy)]
pub enum Layout {
    Values,
    Versions,
}
