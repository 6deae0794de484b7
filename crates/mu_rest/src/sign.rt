//! What a step shows.

/// What a step of a replica shows of how others and it itself get on.
#[derive(Clone, Copy)]
pub enum Sign {
    /// A read of the beats of another one found this count.
    Beats(u8, u64),
    /// A read of the head of another one found this.
    Head(u8, u64),
    /// A word of a row was written or read, or a FUO or the own head raised.
    Work,
    /// A fence, a minimum or a slot was changed.
    Change,
    /// The last step of a cycle.
    CycleEnd,
    /// None of these.
    Nothing,
}
