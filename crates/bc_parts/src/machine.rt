//! What a machine is: a state that is held in parts, and the events that change it.
ghost use Rattle.std.specs.Prelude.{◌≡◌, ℕ, ◌+◌, ◌^◌, ◌<◌, ◌≤◌, List, [], ◌∷◌, ◌++◌, length};
ghost use Rattle.std.specs.Prelude.{Bool, false, Option, Some, Result, Err, OnOk, fold};
ghost use Rattle.bc_parts.specs.Course.{IsCourse};

use std::alloc::AllocError;

/// A machine, whose state is held in parts and changes by events alone.
///
/// A seat commits an event while it holds each part that the event changes. The Book is itself a
/// part: it keeps the list of all events, in the order in which they were committed.
pub trait Machine {
    /// A part of the running state.
    type Part;
    /// One change. It carries the number of the seat that commits it, and says which parts it
    /// changes.
    type Event: Drop;
    /// The list of the events so far, with the room that was made for more.
    type Book;
    /// Why a run has stopped.
    type Stop: Copy;

    // What the parts stand for together, with whatever else the events speak of.
    ghost State: { Type 0 };
    // The state as a run begins with these parts.
    ghost opening: { List Self.Part → State };
    // The state that an event leaves.
    ghost after: { State → Self.Event → State };
    // Whether the event may happen in this state.
    ghost enabled: { State → Self.Event → Type 0 };
    // The part of this number, having this value, stands for its share of the state.
    ghost stands: { ℕ → Self.Part → State → Type 0 };
    // In a run of so many parts, whether the event changes the part of this number.
    ghost changes: { ℕ → Self.Event → ℕ → Bool };
    // The number of the seat that commits the event.
    ghost number: { Self.Event → ℕ };
    // The events of the Book, in order.
    ghost events: { Self.Book → List Self.Event };
    // For how many events more the Book has room.
    ghost room: { Self.Book → ℕ };
    // Whether an event may be added to these events, or which stop forbids it.
    ghost verdict: { List Self.Event → Self.Event → Result (Unit {0}) Self.Stop };
    // The stop that these events made, if they made one.
    ghost stop: { List Self.Event → Option Self.Stop };

    /// Adds the event behind the others. It takes no memory.
    fn put_event(book: &mut Self::Book, event: Self::Event)
        requires { 0 < room book.old }
        ensures events { events book.new ≡ events book.old ++ event ∷ [] }
        ensures room { room book.old ≤ room book.new + 1 }
        ensures few { length (events book.new) < 2 ^ 64 };

    /// Makes room for so many events beyond those for which room was made before. `Err` comes from
    /// want of memory, and leaves the events as they are and the room no smaller.
    fn reserve(book: &mut Self::Book, more: usize) -> Result<(), AllocError>
        ensures events { events book.new ≡ events book.old }
        ensures room { room book.old ≤ room book.new }
        ensures more { OnOk result (room book.old + more ≤ room book.new) };

    /// Whether the event may be committed now. `Err` says why it may not.
    fn admits(book: &Self::Book, event: &Self::Event) -> Result<(), Self::Stop>
        ensures { result ≡ verdict (events book.now) event.now };

    /// The stop that the events made, or `None` where they made none.
    fn stopped(book: &Self::Book) -> Option<Self::Stop>
        ensures { result ≡ stop (events book.now) };

    // An event that may happen in a run leaves alone what a part stands for that it does not change.
    ghost frame: { (start : List Self.Part) (es : List Self.Event) (k : ℕ) (p : Self.Part)
        (e : Self.Event) → IsCourse enabled after (opening start) es
        → enabled (fold after (opening start) es) e → changes (length start) e k ≡ false
        → stands k p (fold after (opening start) es)
        → stands k p (after (fold after (opening start) es) e) };
    // A Book that has stopped stays so.
    ghost stays: { (es : List Self.Event) (e : Self.Event) (s : Self.Stop)
        → stop es ≡ Some s → stop (es ++ e ∷ []) ≡ Some s };
    // An event is refused only after a stop, which the refusal names.
    ghost names: { (es : List Self.Event) (e : Self.Event) (s : Self.Stop)
        → verdict es e ≡ Err s → stop es ≡ Some s };
}
