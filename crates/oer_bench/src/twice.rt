//! What the turns are given: two copies that alternate.

/// Two copies of octets.
#[derive(Drop)]
pub(crate) struct Twice {
    pub one: Vec<u8>,
    pub other: Vec<u8>,
}

impl Twice {
    /// The octets of this turn.
    pub(crate) fn of_turn(&self, turn: u32) -> &[u8] {
        of_turn(turn, self.one.as_slice(), self.other.as_slice())
    }
}

/// The one in even turns, the other in odd ones.
pub(crate) fn of_turn<T: Copy>(turn: u32, one: T, other: T) -> T {
    if turn.is_multiple_of(2) {
        return one;
    }
    other
}
