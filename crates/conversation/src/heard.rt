//! What a line is answered.
/// What a line is answered.
#[derive(Drop)]
pub struct Heard {
    /// The lines that say how a request comes about, where it asks for them. They go out first.
    pub explained: String,
    /// The lines that go out.
    pub text: String,
    /// What the journal gets: lines of a script.
    pub journal: String,
    /// Whether the conversation is over.
    pub is_last: bool,
}
