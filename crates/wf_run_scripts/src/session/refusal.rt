/// Why an event is refused.
#[derive(Clone, Copy)]
pub enum Refusal {
    /// The originator has used all 255 tokens.
    Spent,
    /// The originator has an agreement open.
    Open {
        /// The token of that agreement.
        token: u8,
    },
    /// There is no unsettled request.
    NotAsked,
    /// The end has no agreement open.
    NotOpen,
    /// The other end has not sent that many messages.
    NoMessage,
}
