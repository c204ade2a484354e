use crate::error::TxnError;

/// The next step of a transaction, for a caller that waits for a `T`. It makes one request `R` at a time.
#[derive(Drop)]
pub enum Turn<R, T> {
    /// It makes this request, and continues with the reply.
    Ask(R),
    /// The operation has ended with this result or error. The transaction is open as before.
    Ended(Result<T, TxnError>),
}
