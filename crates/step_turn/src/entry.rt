/// A call in a history. No value of it is made.
pub struct Call<Q, A> {
    /// Its number. The first call has 1.
    pub number: u64,
    /// The number of the seat that made it.
    pub seat: u64,
    pub asked: Q,
    pub answer: A,
    /// The object's count of faults before the call.
    pub before: u64,
    /// And after it.
    pub after: u64,
}

/// An entry of a history. No value of it is made.
pub enum Entry<Q, A> {
    Called(Call<Q, A>),
    /// The object was stopped, and was opened again. The counts of faults are those before and after.
    Reopened { before: u64, after: u64 },
}
