/// The store in which a file wasn't opened: its call failed.
#[derive(Drop)]
pub struct OpenRefused<S> {
    pub store: S,
}
