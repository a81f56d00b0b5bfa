//! Numbers that are choices.

/// How many questions one look-up asks at the most, its own with them. Each follows as many aliases as one reply has.
pub const MOST_QUESTIONS: u32 = 8;
