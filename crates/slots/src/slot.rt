/// A slot of a world, with what became of its replica `N`, and the keeper `K` that outlives it.
#[derive(Drop)]
pub enum Slot<N, K> {
    /// It is up.
    Up(N),
    /// It is down: its keeper waits for it to be opened.
    Down(K),
    /// It is lost for good. The keeper is kept only for what is said of it.
    Gone(K),
}
