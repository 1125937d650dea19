/// Where lines come from, and where their answers go.
#[derive(Drop)]
pub struct Connection<I, O> {
    pub input: I,
    pub output: O,
}
