//! What a seat of any machine knows, and what it has done, in the words in which steps speak.
//!
//! While a seat waits for a part, other seats commit events, so what it saw is no longer so. A step
//! can't ask its caller what holds at its commit: nobody knows that before. It asks what holds in
//! the state that the seat has seen, and goes on only from what no event of another seat makes
//! false (`Steady`): what the seat itself noted, what the parts in its hands stand for, and lasting
//! facts. A commit may then be asked for in every state to which others can have led (`Since`), and
//! afterwards the seat knows that its event stands behind such a state and nothing else of its own
//! does (`Committed`); where the Book refuses the event, that it only waited (`Waited`). Longer ways
//! are put together of these by the seat's own events alone (`Went`), whatever others did between.
#![tactic(auto)]

pub mod laws;
pub mod seats;
