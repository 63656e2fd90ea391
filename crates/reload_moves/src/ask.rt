//! What asks for a register.

/// For what a register is asked.
#[derive(Clone, Copy)]
pub enum What {
    /// For those that share a register with an operand which is moved.
    Own,
    /// For the base of those that share it with an operand which stays.
    StayingBase,
    /// For the base of a result.
    ResultBase,
    /// For the far base of those that share it with an operand which stays.
    StayingFar,
    /// For the far base of a result.
    ResultFar,
}

/// What asks for a register.
#[derive(Clone, Copy)]
pub struct Ask {
    /// For what.
    pub what: What,
    /// The place of the operand, or of the one that stands for those which share.
    pub place: usize,
}
