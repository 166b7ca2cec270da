// Whether a sale that is booked still counts, or was cancelled.
ghost use Rattle.std.specs.Prelude.{◌≡◌};
ghost use Rattle.book.specs.Status.{status_of, number_of_status};

#[derive(Clone, Copy)]
pub enum Status {
    Live,
    Cancelled,
}

// The number by which the words of a book and the callers in C know it.
impl From<Status> for u32 {
    ghost from_gives = { λ status number. number ≡ number_of_status status };

    fn from(status: Status) -> u32 {
        match status {
            Status::Live => 0,
            Status::Cancelled => 1,
        }
    }
}

// The status that a word says. A sound book has no other word than those two.
impl From<u32> for Status {
    ghost from_gives = { λ word status. status ≡ status_of word };

    fn from(word: u32) -> Status {
        match word {
            0 => Status::Live,
            _ => Status::Cancelled,
        }
    }
}
