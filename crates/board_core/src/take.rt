/// What a take answers.
pub enum Take<T> {
    /// The pass holds the position, which is handed out.
    Taken(T),
    /// So many predecessors weren't finished.
    NotReady(u64),
    /// Another pass took it.
    Gone,
}
